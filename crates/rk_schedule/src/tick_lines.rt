//! The lines of ticks.

ghost use Rattle.std.specs.Prelude.{◌≡◌, ◌<◌, ◌++◌, OnOk};
ghost use Rattle.rk_model.specs.Scheduling.Running.{running};
ghost use Rattle.rk_model.specs.Scheduling.Seats.{cpu_count};
ghost use Rattle.rk_model.specs.Text.Schedules.{view_text, views_from, tick_line};

use crate::pieces::{push_decimal, push_text};
use rk_kernel::{Parts, run_view};
use rk_model::{NoMemory, View};

/// Adds what a processor does.
#[tactic(auto, unfolding(rk_model::specs::Text::Schedules::view_text))]
fn push_view(out: &mut Vec<u8>, parts: &Parts, cpu: u8) -> Result<(), NoMemory>
    requires { cpu < cpu_count parts.now }
    ensures { OnOk result (out.new.items ≡ out.old.items ++ view_text (running parts.now cpu)) }
{
    match run_view(parts, cpu) {
        View::Idle => push_text(out, " -"),
        View::Spins(thread) => {
            push_text(out, " s")?;
            push_decimal(out, u64::from(thread.at()))
        }
        View::Runs(thread) => {
            push_text(out, " t")?;
            push_decimal(out, u64::from(thread.at()))
        }
    }
}

/// Adds what each processor does.
fn push_views(out: &mut Vec<u8>, parts: &Parts) -> Result<(), NoMemory>
    ensures { OnOk result (out.new.items ≡ out.old.items ++ views_from parts.now 0 (cpu_count parts.now)) }
{
    let count = parts.cpus();
    for cpu in 0..count {
        push_view(out, parts, cpu)?;
    }
    Ok(())
}

/// Adds the line of the tick that comes next.
#[tactic(auto, unfolding(rk_model::specs::Text::Schedules::tick_line))]
pub(crate) fn push_tick(out: &mut Vec<u8>, parts: &Parts) -> Result<(), NoMemory>
    ensures { OnOk result (out.new.items ≡ out.old.items ++ tick_line parts.now) }
{
    push_text(out, "tick ")?;
    push_decimal(out, u64::from(parts.tick()) + 1)?;
    push_views(out, parts)
}
