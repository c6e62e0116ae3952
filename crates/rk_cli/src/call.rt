//! All that the program does.

ghost use Rattle.std.specs.Prelude.{◌≡◌, ◌≤◌, string_bytes};
ghost use Rattle.rk_cli.specs.Plans.{IsPlanned, IsTaken};
ghost use Rattle.rk_cli.specs.CheckAnswers.{SaysOfCheck};
ghost use Rattle.rk_cli.specs.Statuses.{IsPlan, IsCheck, IsRun, IsPlainUsage, IsUsage};
ghost use Rattle.rk_cli.specs.Answers.{SaysOfSchedule};
ghost use Rattle.rk_cli.specs.Calls.{streams, AreKept, SaysOfPlainWords, SaysOfWords, IsUsageCall, IsPlanCall, IsRunCall, IsCheckCall, WritesLegalSchedule};

use crate::answer::{Answer, plan_answer, run_answer};
use crate::checking::{Checked, check_answer};
use crate::emitting::{emit, emit_ok, emit_usage};
use crate::status::{FINISHED, LIMITED, NO_MEMORY, READ_FAULT, REFUSED, REJECTED};
use crate::words::is_word;
use rk_io::{Gate, Sink, Source};
use std::alloc::Global;
use std::sync::Wait;
use std::thread::Threads;

/// Reads a scenario, and writes the schedule of its planned history, or its refusal.
fn plan<S: Source, K: Sink>(alloc: Global, source: &mut S, sink: &mut K) -> u8
    ensures says { SaysOfSchedule IsPlanned (S.left source.old) (S.left source.new)
        (K.taken_so_far sink.old) (K.taken_so_far sink.new) result }
    ensures kept { AreKept (streams S.left S.faults K.taken_so_far K.faults source.old source.new sink.old sink.new) result }
    ensures unwritten { result ≡ 5 → sink.new ≡ sink.old }
{
    match plan_answer(alloc, source) {
        Answer::Finished(text) => emit(sink, text.as_slice(), FINISHED),
        Answer::Limited(text) => emit(sink, text.as_slice(), LIMITED),
        Answer::Refused(text) => emit(sink, text.as_slice(), REFUSED),
        Answer::ReadFault => READ_FAULT,
        Answer::NoMemory => NO_MEMORY,
    }
}

/// Reads a scenario and a schedule, and writes whether that is a schedule of the scenario.
fn check<S: Source, K: Sink>(alloc: Global, source: &mut S, sink: &mut K) -> u8
    ensures says { SaysOfCheck (S.left source.old) (S.left source.new)
        (K.taken_so_far sink.old) (K.taken_so_far sink.new) result }
    ensures kept { AreKept (streams S.left S.faults K.taken_so_far K.faults source.old source.new sink.old sink.new) result }
    ensures unwritten { result ≡ 5 → sink.new ≡ sink.old }
{
    match check_answer(alloc, source) {
        Checked::Accepted => emit_ok(sink),
        Checked::Rejected(text) => emit(sink, text.as_slice(), REJECTED),
        Checked::Refused(text) => emit(sink, text.as_slice(), REFUSED),
        Checked::ReadFault => READ_FAULT,
        Checked::NoMemory => NO_MEMORY,
    }
}

/// Reads a scenario, runs it by threads, and writes the schedule of the history that they took, or its
/// refusal.
fn run<S: Source, K: Sink, G: Gate + Send + Drop, R: Threads + Wait + Sync>(
    rt: &R,
    alloc: Global,
    source: &mut S,
    sink: &mut K,
    gate: G,
) -> u8
    ensures says { SaysOfSchedule IsTaken (S.left source.old) (S.left source.new)
        (K.taken_so_far sink.old) (K.taken_so_far sink.new) result }
    ensures kept { AreKept (streams S.left S.faults K.taken_so_far K.faults source.old source.new sink.old sink.new) result }
    ensures unwritten { result ≡ 5 → sink.new ≡ sink.old }
{
    match run_answer(rt, alloc, source, gate) {
        Answer::Finished(text) => emit(sink, text.as_slice(), FINISHED),
        Answer::Limited(text) => emit(sink, text.as_slice(), LIMITED),
        Answer::Refused(text) => emit(sink, text.as_slice(), REFUSED),
        Answer::ReadFault => READ_FAULT,
        Answer::NoMemory => NO_MEMORY,
    }
}

/// Does what the words say without starting threads, and returns the status with which the program ends.
///
/// The one word `plan` reads a scenario from the source, to its end, and writes the schedule of its
/// planned history: at each step the lowest-numbered processor with a directive executes it; if none
/// has one, the clock ticks. The one word `check` reads a scenario, a line `---` and a schedule, and
/// writes `ok` where that is the schedule of a legal history of the scenario, which ends with the end
/// of the run. Any other words, `run` among them, print the usage text and read nothing.
///
/// The status is
///
/// - 0 where the schedule was written, and its history ends with the end of the run, or where the
///   schedule that was read is one;
/// - 1 where the words are others;
/// - 2 where the text that was read is no scenario's, and the refusal `scenario line L: WHY` was
///   written: the line, from 1, or 0 for the whole text, and what is wrong with it;
/// - 3 where memory ran out;
/// - 4 where the schedule was written, and its history was cut at the scenario's limit;
/// - 5 where the source failed; then nothing was written;
/// - 6 where the sink failed;
/// - 7 where the schedule that was read is none, and the refusal `schedule line L: WHY` was written.
///
/// With 3 and 6 the sink may have got a prefix of what was to be written.
pub fn plain_top<S: Source, K: Sink>(
    alloc: Global,
    words: &[String],
    source: &mut S,
    sink: &mut K,
) -> u8
    ensures status { result ≤ 7 }
    ensures words { SaysOfPlainWords string_bytes words.now result }

    // What comes of each command.
    ensures usage { IsPlainUsage string_bytes words.now
        → IsUsageCall (streams S.left S.faults K.taken_so_far K.faults source.old source.new sink.old sink.new) result }
    ensures plan { IsPlan string_bytes words.now
        → IsPlanCall (streams S.left S.faults K.taken_so_far K.faults source.old source.new sink.old sink.new) result }
    ensures check { IsCheck string_bytes words.now
        → IsCheckCall (streams S.left S.faults K.taken_so_far K.faults source.old source.new sink.old sink.new) result }

    // What holds whatever the words are.
    ensures kept { AreKept (streams S.left S.faults K.taken_so_far K.faults source.old source.new sink.old sink.new) result }
    ensures unread { IsPlainUsage string_bytes words.now → source.new ≡ source.old }
    ensures unwritten { result ≡ 5 → sink.new ≡ sink.old }
{
    if is_word(words, "plan") {
        plan(alloc, source, sink)
    } else if is_word(words, "check") {
        check(alloc, source, sink)
    } else {
        emit_usage(sink)
    }
}

/// Does what the words say, and returns the status with which the program ends. It may wait for the
/// threads that it starts.
///
/// The one word `run` reads a scenario from the source, to its end, runs it with a thread for each
/// processor, as far as threads can be started, and writes the schedule of the history that they took:
/// a legal one of the scenario, which ends with the end of the run or was cut at the scenario's limit.
/// Any other words do what they do with `plain_top`.
///
/// The status is as there; for `run` it is
///
/// - 0 where the schedule was written, and its history ends with the end of the run;
/// - 2 where the text that was read is no scenario's, and its refusal was written;
/// - 3 where memory ran out;
/// - 4 where the schedule was written, and its history was cut at the scenario's limit;
/// - 5 where the source failed; then nothing was written;
/// - 6 where the sink failed.
///
/// With 3 and 6 the sink may have got a prefix of what was to be written.
pub fn top<S: Source, K: Sink, G: Gate + Send + Drop, R: Threads + Wait + Sync>(
    rt: &R,
    alloc: Global,
    words: &[String],
    source: &mut S,
    sink: &mut K,
    gate: G,
) -> u8
    ensures status { result ≤ 7 }
    ensures words { SaysOfWords string_bytes words.now result }

    // Where a schedule was written, it is that of a legal history of the scenario that was read.
    ensures legal { ¬ IsCheck string_bytes words.now
        → WritesLegalSchedule (streams S.left S.faults K.taken_so_far K.faults source.old source.new sink.old sink.new) result }

    // What comes of each command.
    ensures usage { IsUsage string_bytes words.now
        → IsUsageCall (streams S.left S.faults K.taken_so_far K.faults source.old source.new sink.old sink.new) result }
    ensures plan { IsPlan string_bytes words.now
        → IsPlanCall (streams S.left S.faults K.taken_so_far K.faults source.old source.new sink.old sink.new) result }
    ensures check { IsCheck string_bytes words.now
        → IsCheckCall (streams S.left S.faults K.taken_so_far K.faults source.old source.new sink.old sink.new) result }
    ensures run { IsRun string_bytes words.now
        → IsRunCall (streams S.left S.faults K.taken_so_far K.faults source.old source.new sink.old sink.new) result }

    // What holds whatever the words are.
    ensures kept { AreKept (streams S.left S.faults K.taken_so_far K.faults source.old source.new sink.old sink.new) result }
    ensures unread { IsUsage string_bytes words.now → source.new ≡ source.old }
    ensures unwritten { result ≡ 5 → sink.new ≡ sink.old }
{
    if is_word(words, "run") {
        run(rt, alloc, source, sink, gate)
    } else {
        plain_top(alloc, words, source, sink)
    }
}
