ghost use Rattle.std.specs.Prelude.{◌≡◌, ◌<◌, ◌≤◌, ℕ, List, Option, length, IfOk, OnErr};
ghost use Rattle.rk_io.specs.Causes.{HasCause, HasReadCause};
ghost use Rattle.rk_io.specs.Bytes.{Consumes, ConsumesPrefix, IsAtEnd, moved};
ghost use Rattle.rk_io.specs.WholeInput.{HasRead};
ghost use Rattle.rk_io.specs.declared.source.ReadError.TheVariants as why;

use std::alloc::{AllocError, Global};

/// A read failed, and took nothing.
#[derive(Clone, Copy, Debug, PartialEq, Eq)]
pub struct Failed;

/// What bytes are read from.
pub trait Source {
    /// The bytes that are left, where it tells them.
    ghost left: { Self → Option (List ℕ) };

    /// How often it has failed.
    ghost faults: { Self → ℕ };

    /// Reads the next bytes into the front of a buffer, which isn't empty, and says how many.
    /// That is 0 only at the end of the input. `Failed` comes only where the count of faults rose.
    fn read(&mut self, buf: &mut [u8]) -> Result<u64, Failed>
        requires { 0 < length buf.old }
        ensures within { IfOk result (λ n. n ≤ length buf.new) }
        ensures bytes { Consumes (left self.old) (left self.new) (moved result buf.new) }
        ensures end { IfOk result (λ n. n ≡ 0 → IsAtEnd (left self.old)) }
        ensures cause { HasCause (faults self.old) (faults self.new) result };
}

/// What was read: all bytes to the end of the input, or one more than the most that were asked for.
#[derive(Debug, Drop)]
pub struct Input {
    /// The bytes, in order.
    pub bytes: Vec<u8>,

    /// Whether the bytes reach to the end of the input.
    pub whole: bool,
}

/// Why reading to the end stopped before it.
#[derive(Clone, Copy, Debug, PartialEq, Eq)]
pub enum ReadError {
    /// The source failed, and its count of faults rose.
    Failed,

    /// There was no memory for the bytes.
    Memory,
}

impl From<Failed> for ReadError {
    ghost from_gives = { λ _ e. e ≡ why.Failed };

    fn from(_: Failed) -> ReadError {
        ReadError::Failed
    }
}

impl From<AllocError> for ReadError {
    ghost from_gives = { λ _ e. e ≡ why.Memory };

    fn from(_: AllocError) -> ReadError {
        ReadError::Memory
    }
}

/// How many bytes reading to the end asks for at once, at most.
const CHUNK: usize = 4096;

/// Reads to the end of the input, or the first `most + 1` bytes where there are more than `most`.
/// Where it stops with an error it has taken a prefix of what was left.
pub fn read_all<S: Source>(alloc: Global, source: &mut S, most: u64) -> Result<Input, ReadError>
    ensures read { IfOk result (HasRead (S.left source.old) (S.left source.new) most) }
    ensures cause { HasReadCause (S.faults source.old) (S.faults source.new) result }
    ensures prefix { OnErr result (ConsumesPrefix (S.left source.old) (S.left source.new)) }
{
    let mut bytes = Vec::new(alloc);
    let mut buf = [0u8; CHUNK];
    'reading: while bytes.len() as u64 <= most {
        let wanted = (most - bytes.len() as u64).min(CHUNK as u64 - 1) as usize + 1;
        let count = source.read(&mut buf[..wanted])?;
        if count == 0 {
            return Ok(Input { bytes, whole: true });
        }
        bytes.extend_from_slice(&buf[..count as usize])?;
    }
    Ok(Input {
        bytes,
        whole: false,
    })
}
