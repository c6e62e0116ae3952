//! What checking a schedule has to say about a source.

ghost use Rattle.std.specs.Prelude.{◌≡◌, ◌≤◌, ◌++◌, OnOk, IfOk};
ghost use Rattle.rk_io.specs.Bytes.{ConsumesPrefix};
ghost use Rattle.rk_cli.specs.Cuts.{is_mark, parted, parted_from};
ghost use Rattle.rk_cli.specs.Texts.{schedule_why_text, schedule_refusal_text};
ghost use Rattle.rk_cli.specs.CheckAnswers.{IsChecked};

use crate::answer::write_refusal;
use rk_io::{ReadError, Source, read_all};
use rk_model::limits::MOST_CHECKED;
use rk_model::{NoMemory, ScenarioWhy, ScheduleWhy};
use rk_scenario::{ScenarioError, read_scenario};
use rk_schedule::pieces::{push_decimal, push_text};
use rk_schedule::{ScheduleError, read_schedule};
use std::alloc::Global;

/// What checking has to say.
#[derive(Debug, Drop)]
pub(crate) enum Checked {
    /// The second part is the schedule of a finished history.
    Accepted,

    /// The refusal of a schedule that has a fault.
    Rejected(Vec<u8>),

    /// The refusal of a scenario that has a fault.
    Refused(Vec<u8>),

    /// The source failed.
    ReadFault,

    /// Out of memory.
    NoMemory,
}

/// Adds the word for what is wrong with a schedule.
#[tactic(auto, unfolding(crate::specs::Texts::schedule_why_text))]
fn push_schedule_why(out: &mut Vec<u8>, why: ScheduleWhy) -> Result<(), NoMemory>
    ensures { OnOk result (out.new.items ≡ out.old.items ++ schedule_why_text why) }
{
    match why {
        ScheduleWhy::Form => push_text(out, "Form"),
        ScheduleWhy::Status => push_text(out, "Status"),
        ScheduleWhy::Order => push_text(out, "Order"),
        ScheduleWhy::Unfinished => push_text(out, "Unfinished"),
    }
}

/// The refusal for a fault at a line of a schedule.
#[tactic(auto, unfolding(crate::specs::Texts::schedule_refusal_text))]
fn write_schedule_refusal(alloc: Global, line: u32, why: ScheduleWhy) -> Result<Vec<u8>, NoMemory>
    ensures { IfOk result (λ text. text.items ≡ schedule_refusal_text (record { line = line; why = why })) }
{
    let mut text = Vec::new(alloc);
    push_text(&mut text, "schedule line ")?;
    push_decimal(&mut text, u64::from(line))?;
    push_text(&mut text, ": ")?;
    push_schedule_why(&mut text, why)?;
    push_text(&mut text, "\n")?;
    Ok(text)
}

/// Whether a line is the one between a scenario and a schedule.
#[tactic(auto, unfolding(crate::specs::Cuts::is_mark))]
fn is_mark(line: &[u8]) -> bool
    ensures { result ≡ is_mark line.now }
{
    line == b"---".as_slice()
}

/// The bytes in front of the first line that is exactly `---`, and those behind it; without such a
/// line all bytes, and none.
fn part(bytes: &[u8]) -> (&[u8], &[u8])
    ensures scenario { result.0.now ≡ (parted bytes.now).scenario }
    ensures schedule { result.1.now ≡ (parted bytes.now).schedule }
{
    let mut start = 0;
    for (at, byte) in bytes.iter().enumerate() {
        if *byte == b'\n' {
            if is_mark(&bytes[start..at]) {
                return (&bytes[..start], &bytes[at + 1..]);
            }
            start = at + 1;
        }
    }
    if is_mark(&bytes[start..]) {
        (&bytes[..start], &[])
    } else {
        (bytes, &[])
    }
}

/// What checking has to say about a source.
pub(crate) fn check_answer<S: Source>(alloc: Global, source: &mut S) -> Checked
    ensures answer { IsChecked (S.left source.old) (S.left source.new)
        (S.faults source.old) (S.faults source.new) result }
    ensures taken { ConsumesPrefix (S.left source.old) (S.left source.new) }
    ensures later { S.faults source.old ≤ S.faults source.new }
{
    let input = match read_all(alloc, source, MOST_CHECKED as u64) {
        Ok(input) => input,
        Err(ReadError::Failed) => return Checked::ReadFault,
        Err(ReadError::Memory) => return Checked::NoMemory,
    };
    if !input.whole {
        return match write_refusal(alloc, 0, ScenarioWhy::TooLarge) {
            Ok(text) => Checked::Refused(text),
            Err(NoMemory) => Checked::NoMemory,
        };
    }
    let (text, schedule) = part(input.bytes.as_slice());
    match read_scenario(alloc, text) {
        Ok(scenario) => match read_schedule(alloc, &scenario, schedule) {
            Ok(_) => Checked::Accepted,
            Err(ScheduleError::Refused { line, why }) => {
                match write_schedule_refusal(alloc, line, why) {
                    Ok(text) => Checked::Rejected(text),
                    Err(NoMemory) => Checked::NoMemory,
                }
            }
            Err(ScheduleError::Memory) => Checked::NoMemory,
        },
        Err(ScenarioError::Refused { line, why }) => match write_refusal(alloc, line, why) {
            Ok(text) => Checked::Refused(text),
            Err(NoMemory) => Checked::NoMemory,
        },
        Err(ScenarioError::Memory) => Checked::NoMemory,
    }
}
