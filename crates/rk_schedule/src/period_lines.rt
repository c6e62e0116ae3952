//! The lines of periods.

ghost use Rattle.std.specs.Prelude.{◌≡◌, ◌≤◌, ◌++◌, OnOk};
ghost use Rattle.rk_model.specs.declared.limits.TheConstants.{MOST_OBJECTS};
ghost use Rattle.rk_model.specs.Text.Schedules.{text_of_lines, period_text, number_text, stats_text, period_line, lines_of_period, period_lines_from};
ghost use Rattle.rk_schedule.specs.Stored.{stored_in};

use crate::pieces::{push_decimal, push_hex, push_text};
use rk_kernel::{Parts, period_stats};
use rk_model::limits::MOST_OBJECTS;
use rk_model::{Class, Id, NoMemory, Stats};

/// Adds a number behind a space.
fn push_number(out: &mut Vec<u8>, number: u64) -> Result<(), NoMemory>
    ensures { OnOk result (out.new.items ≡ out.old.items ++ number_text number) }
{
    push_text(out, " ")?;
    push_decimal(out, number)
}

/// Adds the id of a period, whose index is from 1 to 64.
#[tactic(auto, unfolding(rk_model::specs::Text::Schedules::period_text))]
fn push_id(out: &mut Vec<u8>, index: u16) -> Result<(), NoMemory>
    requires low { 1 ≤ index }
    requires high { index ≤ MOST_OBJECTS }
    ensures { OnOk result (out.new.items ≡ out.old.items ++ period_text index) }
{
    push_text(out, "period ")?;
    push_hex(out, u64::from(Id::of(Class::Period, index).bits))
}

/// Adds statistics.
#[tactic(auto, unfolding(rk_model::specs::Text::Schedules::stats_text))]
fn push_stats(out: &mut Vec<u8>, stats: &Stats) -> Result<(), NoMemory>
    ensures { OnOk result (out.new.items ≡ out.old.items ++ stats_text stats.now) }
{
    push_number(out, stats.count)?;
    push_number(out, stats.missed)?;
    push_number(out, stats.cpu_least)?;
    push_number(out, stats.cpu_greatest)?;
    push_number(out, stats.cpu_total)?;
    push_number(out, stats.wall_least)?;
    push_number(out, stats.wall_greatest)?;
    push_number(out, stats.wall_total)
}

/// Adds the line of a period, whose index is from 1 to 64.
fn push_period(out: &mut Vec<u8>, index: u16, stats: &Stats) -> Result<(), NoMemory>
    requires low { 1 ≤ index }
    requires high { index ≤ MOST_OBJECTS }
    ensures { OnOk result (out.new.items ≡ out.old.items ++ period_line index stats.now) }
{
    push_id(out, index)?;
    push_stats(out, stats)
}

/// Adds the line of the period of an index from 1 to 64, with its line feed, where it lives.
#[tactic(auto, using(crate::proofs::PeriodLineLemmas::none_lives, crate::proofs::PeriodLineLemmas::one_lives))]
fn push_if_live(out: &mut Vec<u8>, parts: &Parts, index: u16) -> Result<(), NoMemory>
    requires low { 1 ≤ index }
    requires high { index ≤ MOST_OBJECTS }
    ensures { OnOk result (out.new.items
        ≡ out.old.items ++ text_of_lines (lines_of_period parts.now (stored_in parts.now) index)) }
{
    match period_stats(parts, index) {
        None => Ok(()),
        Some(stats) => {
            push_period(out, index, &stats)?;
            push_text(out, "\n")
        }
    }
}

/// Adds the lines of the periods that live, by their indices.
pub(crate) fn push_periods(out: &mut Vec<u8>, parts: &Parts) -> Result<(), NoMemory>
    ensures { OnOk result (out.new.items
        ≡ out.old.items ++ text_of_lines (period_lines_from parts.now (stored_in parts.now) 1)) }
{
    for index in 1..MOST_OBJECTS as u16 + 1 {
        push_if_live(out, parts, index)?;
    }
    Ok(())
}
