//! What is wrong with a line.

ghost use Rattle.std.specs.Prelude.{◌≡◌, ◌==◌, ◌++◌, ◌∷◌, [], IfOk, OnOk};
ghost use Rattle.std.specs.List.{starts_with};
ghost use Rattle.rk_model.specs.Text.Schedules.{call_text, directive_line};
ghost use Rattle.std.specs.Str.{bytes_eq};
ghost use Rattle.rk_model.specs.Text.ScheduleForms.{has_form};
ghost use Rattle.rk_schedule.specs.Reading.{misplaced, mistaken};

use crate::directive_lines::{push_call, push_directive};
use crate::forms::has_form;
use crate::pieces::push_text;
use rk_model::{Entry, NoMemory, Scenario, ScheduleWhy};
use std::alloc::Global;

/// What is wrong with a line that can't come where it stands, with so many processors.
pub(crate) fn misplaced(alloc: Global, cpus: u8, line: &[u8]) -> Result<ScheduleWhy, NoMemory>
    ensures { IfOk result (λ why. why ≡ misplaced cpus line.now) }
{
    if has_form(alloc, cpus, line)? {
        Ok(ScheduleWhy::Order)
    } else {
        Ok(ScheduleWhy::Form)
    }
}

/// Whether a line is that of an entry up to the directive's word.
fn is_called(
    alloc: Global,
    scenario: &Scenario,
    entry: &Entry,
    line: &[u8],
) -> Result<bool, NoMemory>
    ensures { IfOk result (λ is. is ≡ starts_with ◌==◌ line.now (call_text scenario.now entry.now ++ 32 ∷ [])) }
{
    let mut text = Vec::new(alloc);
    push_call(&mut text, scenario, entry)?;
    push_text(&mut text, " ")?;
    Ok(line.starts_with(text.as_slice()))
}

/// What is wrong with a line whose processor makes another entry next, with so many processors.
pub(crate) fn mistaken(
    alloc: Global,
    scenario: &Scenario,
    cpus: u8,
    entry: &Entry,
    line: &[u8],
) -> Result<ScheduleWhy, NoMemory>
    ensures { IfOk result (λ why. why ≡ mistaken scenario.now cpus entry.now line.now) }
{
    if !has_form(alloc, cpus, line)? {
        return Ok(ScheduleWhy::Form);
    }
    if is_called(alloc, scenario, entry, line)? {
        Ok(ScheduleWhy::Status)
    } else {
        Ok(ScheduleWhy::Order)
    }
}

/// Whether a line is that of an entry of a processor.
pub(crate) fn is_line_of(
    alloc: Global,
    scenario: &Scenario,
    entry: &Entry,
    line: &[u8],
) -> Result<bool, NoMemory>
    ensures { IfOk result (λ is. is ≡ bytes_eq line.now (directive_line scenario.now entry.now)) }
{
    let mut text = Vec::new(alloc);
    push_directive(&mut text, scenario, entry)?;
    Ok(line == text.as_slice())
}
