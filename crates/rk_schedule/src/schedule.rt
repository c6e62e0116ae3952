//! The text of a history: its schedule.

ghost use Rattle.std.specs.Prelude.{◌≡◌, ◌++◌, OnOk, IfOk};
ghost use Rattle.rk_model.specs.Histories.{Legal, opening, after_from, is_end, ends};
ghost use Rattle.rk_model.specs.Text.Scenarios.{IsScenario};
ghost use Rattle.rk_model.specs.Text.Schedules.{text_of_lines, lines_of_entry, entry_lines, header_line, final_line, schedule_text};

use crate::directive_lines::push_directive;
use crate::period_lines::push_periods;
use crate::pieces::{push_decimal, push_text};
use crate::tick_lines::push_tick;
use rk_kernel::laws::statistics_are_those_of_the_history;
use rk_kernel::{Parts, open_parts, replay};
use rk_model::{Entry, NoMemory, Scenario, What, ends_with_end};
use std::alloc::Global;

/// Adds the first line.
#[tactic(auto, unfolding(rk_model::specs::Text::Schedules::header_line))]
fn push_header(out: &mut Vec<u8>) -> Result<(), NoMemory>
    ensures { OnOk result (out.new.items ≡ out.old.items ++ header_line) }
{
    push_text(out, "schedule 1")
}

/// Adds the line of the entry that comes next, with its line feed; the end has none here.
fn push_entry(out: &mut Vec<u8>, parts: &Parts, entry: &Entry) -> Result<(), NoMemory>
    ensures { OnOk result (out.new.items
        ≡ out.old.items ++ text_of_lines (lines_of_entry parts.now entry.now entry.now.what)) }
{
    match entry.what {
        What::Call | What::Return => {
            push_directive(out, parts.scenario(), entry)?;
            push_text(out, "\n")
        }
        What::Tick => {
            push_tick(out, parts)?;
            push_text(out, "\n")
        }
        What::End => Ok(()),
    }
}

/// Adds the lines of entries, and replays them.
fn push_entries(out: &mut Vec<u8>, parts: &mut Parts, entries: &[Entry]) -> Result<(), NoMemory>
    ensures text { OnOk result (out.new.items
        ≡ out.old.items ++ text_of_lines (entry_lines parts.old entries.now)) }
    ensures state { OnOk result (parts.new ≡ after_from parts.old entries.now) }
{
    for entry in entries {
        push_entry(out, parts, entry)?;
        replay(parts, entry.seat);
    }
    Ok(())
}

/// Adds the last line.
#[tactic(auto, unfolding(rk_model::specs::Text::Schedules::final_line))]
pub(crate) fn push_final(
    out: &mut Vec<u8>,
    scenario: &Scenario,
    ended: bool,
) -> Result<(), NoMemory>
    ensures { OnOk result (out.new.items ≡ out.old.items ++ final_line scenario.now ended) }
{
    if ended {
        push_text(out, "end ")?;
        push_decimal(out, u64::from(scenario.horizon))
    } else {
        push_text(out, "limit")
    }
}

/// The schedule of a legal history, which is replayed on parts as they are at the opening.
fn write_by(
    alloc: Global,
    parts: &mut Parts,
    scenario: &Scenario,
    entries: &[Entry],
) -> Result<Vec<u8>, NoMemory>
    requires opened { parts.old ≡ opening scenario.now }
    requires valid { IsScenario scenario.now }
    requires legal { Legal scenario.now entries.now }
    ensures { IfOk result (λ text. text.items ≡ schedule_text scenario.now entries.now) }
{
    let mut text = Vec::new(alloc);
    push_header(&mut text)?;
    push_text(&mut text, "\n")?;
    push_entries(&mut text, parts, entries)?;
    push_periods(&mut text, parts)?;
    push_final(&mut text, scenario, ends_with_end(entries))?;
    push_text(&mut text, "\n")?;
    // The periods have stored what the history shows of them.
    statistics_are_those_of_the_history();
    Ok(text)
}

/// The schedule of a legal history: the first line, the lines of its entries in their order, those of
/// the periods that live after it, and the last line, which says whether the history ends with the
/// end of the run or was cut.
///
/// # Errors
///
/// `NoMemory` where memory ran out.
pub fn write_schedule(
    alloc: Global,
    scenario: &Scenario,
    entries: &[Entry],
) -> Result<Vec<u8>, NoMemory>
    requires valid { IsScenario scenario.now }
    requires legal { Legal scenario.now entries.now }
    ensures { IfOk result (λ text. text.items ≡ schedule_text scenario.now entries.now) }
{
    let mut parts = open_parts(alloc, scenario)?;
    write_by(alloc, &mut parts, scenario, entries)
}
