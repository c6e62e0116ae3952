//! Where a thread is that would arrive at a line of its body.

ghost use Rattle.std.specs.Prelude.{◌≡◌};
ghost use Rattle.rk_model.specs.Limits.{AreRunnable};
ghost use Rattle.rk_model.specs.Directives.Outcomes.{landing, work_at, arrived};

use rk_model::{Op, Scenario, Thread};

/// The line of a body at which a thread is that would arrive at a line.
#[tactic(auto, using(rk_model::proofs::BodyLemmas::goto_within), unfolding(rk_model::specs::Directives::Outcomes::landing))]
fn land(scenario: &Scenario, body: u8, line: u16) -> u16
    requires { AreRunnable scenario.now.bodies }
    ensures { result ≡ landing scenario.now body line }
{
    match scenario.op_at(body, line) {
        Some(Op::Goto(target)) => target as u16,
        _ => line,
    }
}

/// The work that a thread has on arriving at a line.
fn work_of(op: Option<Op>) -> u32
    ensures { result ≡ work_at op }
{
    match op {
        Some(Op::Work(ticks)) => ticks,
        _ => 0,
    }
}

/// A thread that has arrived at a line of its body. At a goto it has arrived at the target.
pub fn arrive(scenario: &Scenario, thread: Thread, line: u16) -> Thread
    requires { AreRunnable scenario.now.bodies }
    ensures { result ≡ arrived scenario.now thread line }
{
    let line = land(scenario, thread.body, line);
    let left = work_of(scenario.op_at(thread.body, line));
    Thread {
        line,
        left,
        ..thread
    }
}
