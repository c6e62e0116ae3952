//! Writing a text under a status.

ghost use Rattle.std.specs.Prelude.{◌≢◌};
ghost use Rattle.rk_cli.specs.Texts.{usage_text, ok_text};
ghost use Rattle.rk_cli.specs.Answers.{Emits};

use crate::status::{ACCEPTED, NO_MEMORY, USAGE, WRITE_FAULT};
use rk_io::{Sink, WriteError, write_all};

/// Writes a text, and answers the status, or why the text could not be written.
pub(crate) fn emit<K: Sink>(sink: &mut K, text: &[u8], status: u8) -> u8
    requires no_fault { status ≢ 6 }
    requires no_memory { status ≢ 3 }
    ensures { Emits (K.taken_so_far sink.old) (K.taken_so_far sink.new)
        (K.faults sink.old) (K.faults sink.new) text.now status result }
{
    match write_all(sink, text) {
        Ok(()) => status,
        Err(WriteError::Failed) => WRITE_FAULT,
        Err(WriteError::Memory) => NO_MEMORY,
    }
}

/// Writes how the program is called.
#[tactic(auto, unfolding(crate::specs::Texts::usage_text))]
pub(crate) fn emit_usage<K: Sink>(sink: &mut K) -> u8
    ensures { Emits (K.taken_so_far sink.old) (K.taken_so_far sink.new)
        (K.faults sink.old) (K.faults sink.new) usage_text 1 result }
{
    emit(
        sink,
        b"usage: rtems_smp run | plan | check | big N\n",
        USAGE,
    )
}

/// Writes that nothing is wrong with a schedule.
#[tactic(auto, unfolding(crate::specs::Texts::ok_text))]
pub(crate) fn emit_ok<K: Sink>(sink: &mut K) -> u8
    ensures { Emits (K.taken_so_far sink.old) (K.taken_so_far sink.new)
        (K.faults sink.old) (K.faults sink.new) ok_text 0 result }
{
    emit(sink, b"ok\n", ACCEPTED)
}
