//! The ending of a schedule: the lines of the periods, the last line, and nothing behind it.

ghost use Rattle.std.specs.Prelude.{◌≡◌, ◌≤◌, ◌+◌, ◌++◌, ◌∷◌, [], true, IfOk, length};
ghost use Rattle.rk_model.specs.declared.scenario.Scenario.{Scenario};
ghost use Rattle.rk_model.specs.State.{Plain};
ghost use Rattle.rk_model.specs.Text.Schedules.{text_of_lines};
ghost use Rattle.rk_model.specs.Text.Words.{whole_lines, loose_end};
ghost use Rattle.rk_schedule.specs.Reading.{loose_fault, ending_fault, ending_lines};
ghost use Rattle.rk_schedule.specs.ReadingAnswers.{EndingAnswers, IsMisplaced};

use crate::errors::ScheduleError;
use crate::judging::misplaced;
use crate::period_lines::push_periods;
use crate::pieces::push_text;
use crate::schedule::push_final;
use rk_kernel::Parts;
use rk_model::words::split_line;
use rk_model::{NoMemory, Scenario, ScheduleWhy};
use std::alloc::Global;

/// The refusal of a line that can't come where it stands.
pub(crate) fn refuse(alloc: Global, cpus: u8, number: u32, line: &[u8]) -> ScheduleError
    ensures { IsMisplaced result cpus number line.now }
{
    match misplaced(alloc, cpus, line) {
        Ok(why) => ScheduleError::Refused { line: number, why },
        Err(NoMemory) => ScheduleError::Memory,
    }
}

/// Checks that nothing stands behind the last line.
fn check_rest(alloc: Global, cpus: u8, number: u32, rest: &[u8]) -> Result<(), ScheduleError>
    ensures { EndingAnswers result (ending_fault cpus number [] (whole_lines rest.now) (loose_end rest.now)) }
{
    match split_line(rest) {
        Some((line, _)) => Err(refuse(alloc, cpus, number, line)),
        None => {
            if rest.is_empty() {
                Ok(())
            } else {
                Err(refuse(alloc, cpus, number, rest))
            }
        }
    }
}

/// Checks that the lines are those that are wanted, and that nothing stands behind them. The first has
/// this number.
fn check_lines(
    alloc: Global,
    cpus: u8,
    number: u32,
    wanted: &[u8],
    rest: &[u8],
) -> Result<(), ScheduleError>
    requires { number + length (whole_lines wanted.now) ≤ 2000000 }
    ensures { EndingAnswers result (ending_fault cpus number (whole_lines wanted.now) (whole_lines rest.now) (loose_end rest.now)) }
{
    let mut at = number;
    let mut wanted = wanted;
    let mut rest = rest;
    while let Some((line, more)) = split_line(wanted) {
        match split_line(rest) {
            None => {
                return Err(ScheduleError::Refused {
                    line: at,
                    why: ScheduleWhy::Unfinished,
                });
            }
            Some((found, after)) => {
                if found != line {
                    return Err(refuse(alloc, cpus, at, found));
                }
                at += 1;
                wanted = more;
                rest = after;
            }
        }
    }
    check_rest(alloc, cpus, at, rest)
}

/// The text of the ending, where the run ends in a state.
fn write_ending(alloc: Global, parts: &Parts, scenario: &Scenario) -> Result<Vec<u8>, NoMemory>
    ensures { IfOk result (λ text. text.items ≡ text_of_lines (ending_lines scenario.now parts.now)) }
{
    let mut text = Vec::new(alloc);
    push_periods(&mut text, parts)?;
    push_final(&mut text, scenario, true)?;
    push_text(&mut text, "\n")?;
    Ok(text)
}

/// Checks the ending, whose first line has this number, where the run ends in a state.
pub(crate) fn check_ending(
    alloc: Global,
    parts: &Parts,
    scenario: &Scenario,
    cpus: u8,
    number: u32,
    rest: &[u8],
) -> Result<(), ScheduleError>
    requires { number ≤ 1900000 }
    ensures { EndingAnswers result (ending_fault cpus number (ending_lines scenario.now parts.now) (whole_lines rest.now) (loose_end rest.now)) }
{
    let text = write_ending(alloc, parts, scenario)?;
    check_lines(alloc, cpus, number, text.as_slice(), rest)
}
