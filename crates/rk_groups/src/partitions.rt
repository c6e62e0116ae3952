//! The partitions of the lent groups. A partition is looked for by its index, and stands in the first of
//! the lent groups whose partitions are those of its group.

ghost use Rattle.std.specs.Prelude.{◌≡◌, ◌<◌, ◌≤◌, None, IfSome, length, true, false};
ghost use Rattle.rk_model.specs.declared.limits.TheConstants.{MOST_OBJECTS};
ghost use Rattle.rk_model.specs.State.{no_partition};
ghost use Rattle.rk_model.specs.Directives.Partitions.{memory_refusal, new_partition};
ghost use Rattle.rk_places.specs.Stores.{IsStoreOf};
ghost use Rattle.rk_partition.specs.Partitions.{without_first, reply_to_get, returned, reply_to_return, deleted, reply_to_delete};
ghost use Rattle.rk_groups.specs.GroupObjects.{partition_lent};
ghost use Rattle.rk_groups.specs.Groups.{group_at, partitions_in, holds_partitions, PutsPartition};

use crate::group::{GroupPart, unknown};
use rk_model::{Reply, Status};

/// The first of the lent groups whose partitions are those of an index's group. Its contract also
/// tells that each group has places for 64 partitions.
fn place_of(groups: &[GroupPart], index: u16) -> Option<usize>
    requires { 1 ≤ index }
    ensures place { result ≡ partitions_in groups.now index }
    ensures within { IfSome result (λ at. at < length groups.now) }
    ensures store { IfSome result (λ at. IsStoreOf no_partition (group_at groups.now at).partitions) }
{
    for at in 0..groups.len() {
        if u16::from(groups[at].partitions.group()) == (index - 1) % 4 {
            return Some(at);
        }
    }
    None
}

/// Whether a partition lives in the lent groups.
pub fn is_live(groups: &[GroupPart], index: u16) -> bool
    requires low { 1 ≤ index }
    requires high { index ≤ MOST_OBJECTS }
    ensures { result ≡ (partition_lent groups.now index).live }
{
    match place_of(groups, index) {
        Some(at) => groups[at].partitions.is_live(index),
        None => false,
    }
}

/// Makes a partition, where none lives, of memory that isn't refused. All its buffers are free.
pub fn create(groups: &mut [GroupPart], index: u16, start: u32, length: u32, size: u32)
    requires low { 1 ≤ index }
    requires high { index ≤ MOST_OBJECTS }
    requires lent { holds_partitions groups.old index ≡ true }
    requires vacant { (partition_lent groups.old index).live ≡ false }
    requires fits { memory_refusal start length size ≡ None }
    ensures { PutsPartition groups.old index (new_partition start length size) groups.new }
{
    if let Some(at) = place_of(groups, index) {
        groups[at].partitions.create(index, start, length, size);
    }
}

/// Takes the first free buffer of a partition that lives, if there is one. The out number is its
/// address.
pub fn take(groups: &mut [GroupPart], index: u16) -> Reply
    requires low { 1 ≤ index }
    requires high { index ≤ MOST_OBJECTS }
    requires live { (partition_lent groups.old index).live ≡ true }
    ensures partition { PutsPartition groups.old index (without_first (partition_lent groups.old index)) groups.new }
    ensures reply { result ≡ reply_to_get (partition_lent groups.old index).free }
{
    match place_of(groups, index) {
        Some(at) => groups[at].partitions.get(index),
        None => unknown(),
    }
}

/// Gives an address back to a partition that lives. Where it is that of a buffer that is out, this
/// goes last among the free ones.
pub fn give_back(groups: &mut [GroupPart], index: u16, address: u32) -> Reply
    requires low { 1 ≤ index }
    requires high { index ≤ MOST_OBJECTS }
    requires live { (partition_lent groups.old index).live ≡ true }
    ensures partition { PutsPartition groups.old index (returned address (partition_lent groups.old index)) groups.new }
    ensures reply { result ≡ reply_to_return address (partition_lent groups.old index) }
{
    match place_of(groups, index) {
        Some(at) => groups[at].partitions.put_back(index, address),
        None => unknown(),
    }
}

/// Ends the life of a partition that lives, unless a buffer of it is out.
pub fn remove(groups: &mut [GroupPart], index: u16) -> Reply
    requires low { 1 ≤ index }
    requires high { index ≤ MOST_OBJECTS }
    requires live { (partition_lent groups.old index).live ≡ true }
    ensures partition { PutsPartition groups.old index (deleted (partition_lent groups.old index)) groups.new }
    ensures reply { result ≡ reply_to_delete (partition_lent groups.old index) }
{
    match place_of(groups, index) {
        Some(at) => groups[at].partitions.remove(index),
        None => unknown(),
    }
}
