ghost use Rattle.std.specs.Prelude.{◌≡◌, ◌≢◌, ◌/◌, false};
ghost use Rattle.rk_model.specs.Lists.{has};
ghost use Rattle.rk_model.specs.Directives.Partitions.{all_buffers, has_invalid_address, has_invalid_size, memory_refusal};
ghost use Rattle.rk_partition.specs.Partitions.{judged};

use rk_model::Status;
use rk_model::limits::{ADDRESSES, ALIGNMENT, MOST_BUFFERS};

/// The memory of a partition.
#[derive(Clone, Copy, Debug, PartialEq, Eq)]
pub(crate) struct Partition {
    /// Its first address.
    pub(crate) start: u32,
    /// How many bytes it has.
    pub(crate) length: u32,
    /// How many bytes a buffer has.
    pub(crate) size: u32,
}

impl Partition {
    /// How many buffers there are.
    pub(crate) fn count(self) -> u32
        requires { self.size ≢ 0 }
        ensures { result ≡ self.length / self.size }
    {
        self.length / self.size
    }

    /// Whether an address is that of a buffer.
    pub(crate) fn has(self, address: u32) -> bool
        requires { self.size ≢ 0 }
        ensures { result ≡ has (all_buffers self.start self.length self.size) address }
    {
        if address < self.start {
            return false;
        }
        let offset = address - self.start;
        offset % self.size == 0 && offset / self.size < self.count()
    }
}

/// Why memory of this start, this length and this size of buffers, both in bytes, can't be a
/// partition. The first of these that holds decides:
///
/// 1. `InvalidAddress` where the start is 0.
/// 2. `InvalidSize` where the length or the size is 0, the size is above the length, or the size is no
///    multiple of 8.
/// 3. `InvalidAddress` where the start is no multiple of 8, or start and length add to more than
///    4,294,967,296.
/// 4. `InvalidSize` where there are more than 1,024 buffers, which are as many as the size goes into
///    the length.
pub fn refusal(start: u32, length: u32, size: u32) -> Option<Status>
    ensures { result ≡ memory_refusal start length size }
{
    if start == 0 {
        return Some(Status::InvalidAddress);
    }
    if has_invalid_size(length, size) {
        return Some(Status::InvalidSize);
    }
    if has_invalid_address(start, length) {
        return Some(Status::InvalidAddress);
    }
    if (length / size) as usize > MOST_BUFFERS {
        return Some(Status::InvalidSize);
    }
    None
}

/// What making a partition of this start, length and size of buffers answers.
pub(crate) fn judge(start: u32, length: u32, size: u32) -> Status
    ensures { result ≡ judged start length size }
{
    match refusal(start, length, size) {
        Some(status) => status,
        None => Status::Successful,
    }
}

/// Whether the length or the size of buffers is invalid, both in bytes.
fn has_invalid_size(length: u32, size: u32) -> bool
    ensures value { result ≡ has_invalid_size length size }
    ensures some { result ≡ false → size ≢ 0 }
{
    length == 0 || size == 0 || size > length || size % ALIGNMENT != 0
}

/// Whether memory starts where it mustn't, or ends behind the last address.
fn has_invalid_address(start: u32, length: u32) -> bool
    ensures { result ≡ has_invalid_address start length }
{
    start % ALIGNMENT != 0 || start as u64 + length as u64 > ADDRESSES
}
