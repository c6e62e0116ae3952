ghost use Rattle.std.specs.Prelude.{◌≡◌, ◌<◌, ◌≤◌, ℕ, List, Option, length, IfOk, OnOk, OnErr};
ghost use Rattle.rk_io.specs.Causes.{HasWriteCause};
ghost use Rattle.rk_io.specs.Bytes.{Appends, AppendsPrefix, moved};
ghost use Rattle.rk_io.specs.declared.sink.WriteError.TheVariants as why;

use std::alloc::AllocError;

/// Why a write took nothing.
#[derive(Clone, Copy, Debug, PartialEq, Eq)]
pub enum WriteError {
    /// The sink failed, and its count of faults rose.
    Failed,

    /// There was no memory for the bytes.
    Memory,
}

impl From<AllocError> for WriteError {
    ghost from_gives = { λ _ e. e ≡ why.Memory };

    fn from(_: AllocError) -> WriteError {
        WriteError::Memory
    }
}

/// What bytes are written to.
pub trait Sink {
    /// The bytes taken so far, where it tells them.
    ghost taken_so_far: { Self → Option (List ℕ) };

    /// How often it has failed.
    ghost faults: { Self → ℕ };

    /// Takes the first of the bytes, which aren't empty, and says how many, at least one.
    /// An error takes nothing, and `Failed` comes only where the count of faults rose.
    fn write(&mut self, bytes: &[u8]) -> Result<u64, WriteError>
        requires { 0 < length bytes.now }
        ensures some { IfOk result (λ n. (0 < n) × (n ≤ length bytes.now)) }
        ensures bytes { Appends (taken_so_far self.old) (taken_so_far self.new)
            (moved result bytes.now) }
        ensures cause { HasWriteCause (faults self.old) (faults self.new) result };
}

/// Writes all the bytes. Where it stops with an error the sink has taken a prefix of them.
/// It takes no memory but what the sink's own `write` takes.
pub fn write_all<K: Sink>(sink: &mut K, bytes: &[u8]) -> Result<(), WriteError>
    ensures written { OnOk result
        (Appends (K.taken_so_far sink.old) (K.taken_so_far sink.new) bytes.now) }
    ensures cause { HasWriteCause (K.faults sink.old) (K.faults sink.new) result }
    ensures prefix { OnErr result
        (AppendsPrefix (K.taken_so_far sink.old) (K.taken_so_far sink.new) bytes.now) }
{
    let mut at = 0;
    while at < bytes.len() {
        let count = sink.write(&bytes[at..])?;
        at += count as usize;
    }
    Ok(())
}
