//! The directives of the event manager.

ghost use Rattle.std.specs.Prelude.{◌≡◌, Some, true};
ghost use Rattle.rk_model.specs.declared.scenario.Scenario.{Scenario as ScenarioView};
ghost use Rattle.rk_model.specs.declared.state.Armer.TheVariants.{Thread as OfThread};
ghost use Rattle.rk_model.specs.Directives.Events.{sent, seized_by as seized_by_wait, with_seized, event_send, event_receive};
ghost use Rattle.rk_model.specs.Directives.Objects.{has_begun};
ghost use Rattle.rk_model.specs.Scheduling.Timers.{times_armed};
ghost use Rattle.rk_directives.specs.Does.{BecomesBoth, Does, DoesBoth};
ghost use Rattle.rk_parts.specs.Joined.{thread_lent, timers_lent};
ghost use Rattle.rk_parts.specs.Lent.{Puts};

use crate::outcomes::done;
use crate::tasks::task_named;
use crate::waits::{end_wait, start_limited};
use rk_groups::group::GroupPart;
use rk_model::{Answer, Reply, Status, Target, Thread, ThreadIx, Wait, Wish};
use rk_parts::lent::{put, thread_of};
use rk_parts::parts::ClusterPart;
use rk_signal::receive;

/// Says which events a task has pending.
fn with_pending(clusters: &mut [ClusterPart], task: ThreadIx, pending: u32)
    requires { has_begun (thread_lent clusters.old task).life ≡ true }
    ensures { Puts clusters.old task (record (thread_lent clusters.old task) { pending = pending }) clusters.new }
{
    let thread = thread_of(clusters, task);
    put(clusters, task, Thread { pending, ..thread });
}

/// A task has seized events: they are no longer pending, and its wait ends with them.
fn with_seized(
    clusters: &mut [ClusterPart],
    groups: &mut [GroupPart],
    task: ThreadIx,
    pending: u32,
    got: u32,
)
    requires { has_begun (thread_lent clusters.old task).life ≡ true }
    ensures { (s : ScenarioView) → BecomesBoth s (λ k. with_seized k task pending (Some got)) clusters.old groups.old clusters.new groups.new }
{
    with_pending(clusters, task, pending ^ got);
    let reply = Reply {
        status: Status::Successful,
        out: got,
    };
    end_wait(clusters, groups, task, reply);
}

/// The events that one who waits like this seizes of these pending ones.
fn seized_by(pending: u32, wait: Option<Wait>) -> Option<u32>
    ensures { result ≡ seized_by_wait pending wait }
{
    match wait {
        Some(Wait::ForEvents(set, all)) => receive(pending, set, all),
        Some(Wait::ForTime)
        | Some(Wait::AtBarrier(_))
        | Some(Wait::ForPeriod(_))
        | Some(Wait::ForSemaphore(_, _))
        | None => None,
    }
}

/// Sends events to a task that has these pending then, and seizes them if it waits for them.
fn sent(
    clusters: &mut [ClusterPart],
    groups: &mut [GroupPart],
    task: ThreadIx,
    pending: u32,
    wait: Option<Wait>,
)
    requires { has_begun (thread_lent clusters.old task).life ≡ true }
    ensures { (s : ScenarioView) → BecomesBoth s (λ k. sent k task pending wait) clusters.old groups.old clusters.new groups.new }
{
    with_pending(clusters, task, pending);
    if let Some(got) = seized_by(pending, wait) {
        with_seized(clusters, groups, task, pending, got);
    }
}

/// `event.send` (`rtems_event_send`): unites a set of events with the pending ones of a task; where
/// it waits for events and its wish is met now, it seizes them, and its wait ends. It refuses with
/// `INVALID_ID` where the task is unknown.
pub(crate) fn event_send(
    clusters: &mut [ClusterPart],
    groups: &mut [GroupPart],
    caller: ThreadIx,
    id: Target,
    set: u32,
) -> Answer
    requires { has_begun (thread_lent clusters.old caller).life ≡ true }
    ensures { (s : ScenarioView) → DoesBoth s (λ k. event_send k caller id set) result clusters.old groups.old clusters.new groups.new }
{
    match task_named(clusters, caller, id) {
        None => Answer::Refused(Status::InvalidId),
        Some(task) => {
            let found = thread_of(clusters, task);
            sent(clusters, groups, task, found.pending | set, found.wait);
            done(0)
        }
    }
}

/// `event.receive` (`rtems_event_receive`): seizes the pending events of a set where the wish is met,
/// and answers them; otherwise it waits for them. With set 0 it only answers the pending events. It
/// refuses with `UNSATISFIED` where the wish isn't met and the caller doesn't wish to wait.
pub(crate) fn event_receive(
    clusters: &mut [ClusterPart],
    caller: ThreadIx,
    set: u32,
    all: bool,
    wish: Wish,
) -> Answer
    requires lives { has_begun (thread_lent clusters.old caller).life ≡ true }
    requires unarmed { times_armed (OfThread caller) (timers_lent clusters.old caller) ≡ 0 }
    ensures { (s : ScenarioView) → Does s (λ k. event_receive k caller set all wish) result clusters.old clusters.new }
{
    let pending = thread_of(clusters, caller).pending;
    if set == 0 {
        return done(pending);
    }
    match receive(pending, set, all) {
        Some(got) => {
            with_pending(clusters, caller, pending ^ got);
            done(got)
        }
        None => match wish {
            Wish::NoWait => Answer::Refused(Status::Unsatisfied),
            Wish::Limit(ticks) => {
                start_limited(clusters, caller, Wait::ForEvents(set, all), ticks);
                Answer::Waiting
            }
        },
    }
}
