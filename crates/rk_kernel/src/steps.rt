//! A step of a processor: the directive of its thread, and the settling after it.

ghost use Rattle.std.specs.Prelude.{◌≡◌, ◌<◌, Some};
ghost use Rattle.std.specs.Option.{option_to_list};
ghost use Rattle.rk_model.specs.declared.limits.TheConstants.{MOST_PROCESSORS};
ghost use Rattle.rk_model.specs.Scheduling.Running.{caller};
ghost use Rattle.rk_model.specs.Scheduling.Settling.{settle};
ghost use Rattle.rk_model.specs.Directives.Outcomes.{answer_of, after_outcome, last_of};
ghost use Rattle.rk_model.specs.Steps.{action, entry_of};
ghost use Rattle.rk_parts.specs.Joined.{plain_of};
ghost use Rattle.rk_kernel.specs.Ready.{IsReady};
ghost use Rattle.rk_kernel.specs.Step.{IsStep};

use rk_directives::actions::action;
use rk_directives::outcomes::{conclude, last_of};
use rk_model::{Entry, ThreadIx, What, Why};
use rk_parts::contribute::contribute;
use rk_parts::helping::host_parts;
use rk_parts::lent::thread_of;
use rk_parts::parts::AllParts;
use rk_parts::processors::{caller_on, why_not};
use rk_parts::settle::settle_parts;

/// What a step of a processor was.
#[derive(Clone, Copy, Debug, PartialEq, Eq)]
pub enum CoreStep {
    /// It did a directive, or returned from one, with this entry.
    Did(Entry),
    /// It has no directive, for this reason.
    Nothing(Why),
}

/// What a step of the clock was.
#[derive(Clone, Copy, Debug, PartialEq, Eq)]
pub enum CoreTick {
    /// A tick passed.
    Ticked,
    /// The run ended at the horizon.
    Ended,
    /// This processor, the lowest-numbered that has a directive, comes first.
    NotYet(u8),
}

/// The thread's next action on a processor, and the settling after it.
pub(crate) fn act_by(all: &mut AllParts, cpu: u8, thread: ThreadIx) -> Entry
    requires caller { caller (plain_of all.old) cpu ≡ Some thread }
    requires ready { IsReady all.old }
    ensures entry { result ≡ entry_of (plain_of all.old) cpu thread (answer_of (action (plain_of all.old) thread)) }
    ensures next { plain_of all.new ≡ settle (plain_of all.old) (after_outcome (plain_of all.old) thread (action (plain_of all.old) thread)) (option_to_list (last_of (answer_of (action (plain_of all.old) thread)))) }
    ensures ready { IsReady all.new }
{
    let was = thread_of(&all.clusters, thread);
    let answer = action(all, thread, &was);
    let reply = conclude(&all.scenario, &mut all.clusters, thread, &answer);
    let last = last_of(&answer);
    contribute(&mut all.clusters);
    settle_parts(&mut all.clusters, &last);
    host_parts(&mut all.clusters);
    Entry {
        seat: cpu,
        what: match was.finished {
            None => What::Call,
            Some(_) => What::Return,
        },
        task: thread.at(),
        body: was.body,
        line: was.line,
        status: reply.status.code(),
        out: reply.out,
    }
}

/// A step of a processor.
pub(crate) fn step_core(all: &mut AllParts, cpu: u8) -> CoreStep
    requires cpu { cpu < MOST_PROCESSORS }
    requires ready { IsReady all.old }
    ensures step { IsStep (plain_of all.old) cpu result (plain_of all.new) }
    ensures ready { IsReady all.new }
{
    match caller_on(&all.clusters, cpu) {
        None => CoreStep::Nothing(why_not(&all.clusters, cpu)),
        Some(thread) => CoreStep::Did(act_by(all, cpu, thread)),
    }
}
