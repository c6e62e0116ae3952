//! How a wait begins and ends: the queue in which the thread stands, its timer, and its reply.

ghost use Rattle.std.specs.Prelude.{◌≡◌, ℕ, None, Some, true};
ghost use Rattle.rk_model.specs.declared.scenario.Scenario.{Scenario as ScenarioView};
ghost use Rattle.rk_model.specs.declared.state.Armer.TheVariants.{Thread as OfThread};
ghost use Rattle.rk_model.specs.Directives.Objects.{has_begun};
ghost use Rattle.rk_model.specs.Directives.Waits.{start_limited, stop_wait, end_wait};
ghost use Rattle.rk_parts.specs.Contributions.{IsOne};
ghost use Rattle.rk_parts.specs.Lending.{home_prio_lent};
ghost use Rattle.rk_model.specs.Scheduling.Timers.{times_armed};
ghost use Rattle.rk_directives.specs.Does.{AllLive, Becomes, BecomesBoth, woken};
ghost use Rattle.rk_parts.specs.Joined.{thread_lent, timers_lent};
ghost use Rattle.rk_parts.specs.Lent.{Puts};

use rk_groups::group::GroupPart;
use rk_groups::queues::leave;
use rk_model::{Armer, Caller, Reply, Thread, ThreadIx, Wait, Wake};
use rk_parts::lent::{put, thread_of};
use rk_parts::parts::ClusterPart;
use rk_parts::standing::prio_at_home;
use rk_parts::ticks::present;
use rk_parts::timers::{arm, cancel};

/// The caller as a manager sees it.
pub(crate) fn caller_of(clusters: &[ClusterPart], caller: ThreadIx) -> Caller
    ensures thread { result.thread ≡ caller }
    ensures home { result.home ≡ (thread_lent clusters.now caller).home }
    ensures prio { result.prio ≡ home_prio_lent clusters.now caller }
    ensures one { IsOne caller }
{
    // Reading the index tells its range.
    let _index = caller.at();
    Caller {
        thread: caller,
        home: thread_of(clusters, caller).home,
        prio: prio_at_home(clusters, caller),
    }
}

/// Lets the caller wait, without a limit.
pub(crate) fn start_wait(clusters: &mut [ClusterPart], caller: ThreadIx, wait: Wait)
    requires { has_begun (thread_lent clusters.old caller).life ≡ true }
    ensures { Puts clusters.old caller (record (thread_lent clusters.old caller) { wait = Some wait }) clusters.new }
{
    let thread = thread_of(clusters, caller);
    let waiting = Thread {
        wait: Some(wait),
        ..thread
    };
    put(clusters, caller, waiting);
}

/// Lets the caller wait with a limit of so many ticks, or with 0 without a limit. Who enters its queue
/// does so by the manager of the object.
pub(crate) fn start_limited(clusters: &mut [ClusterPart], caller: ThreadIx, wait: Wait, ticks: u32)
    requires lives { has_begun (thread_lent clusters.old caller).life ≡ true }
    requires unarmed { times_armed (OfThread caller) (timers_lent clusters.old caller) ≡ 0 }
    ensures { (s : ScenarioView) → Becomes s (λ k. start_limited k caller wait ticks) clusters.old clusters.new }
{
    if ticks == 0 {
        start_wait(clusters, caller, wait);
    } else {
        let due = u64::from(present(clusters)) + u64::from(ticks);
        arm(clusters, caller, Armer::Thread(caller), due);
        start_wait(clusters, caller, wait);
    }
}

/// Lets a thread wait no longer, which stands in no queue any more: cancels its timer, and gives it
/// the reply with which it returns.
fn stop_wait(clusters: &mut [ClusterPart], thread: ThreadIx, reply: Reply)
    requires { has_begun (thread_lent clusters.old thread).life ≡ true }
    ensures state { (s : ScenarioView) → Becomes s (λ k. stop_wait k thread reply) clusters.old clusters.new }
    ensures lives { (t : ℕ) → has_begun (thread_lent clusters.new t).life ≡ has_begun (thread_lent clusters.old t).life }
{
    cancel(clusters, thread, Armer::Thread(thread));
    let waiting = thread_of(clusters, thread);
    let woken = Thread {
        wait: None,
        finished: Some(reply),
        ..waiting
    };
    put(clusters, thread, woken);
}

/// Ends the wait of a thread with a reply: it leaves its queue, and its timer is cancelled.
pub fn end_wait(
    clusters: &mut [ClusterPart],
    groups: &mut [GroupPart],
    thread: ThreadIx,
    reply: Reply,
)
    requires { has_begun (thread_lent clusters.old thread).life ≡ true }
    ensures { (s : ScenarioView) → BecomesBoth s (λ k. end_wait k thread reply) clusters.old groups.old clusters.new groups.new }
{
    let wait = thread_of(clusters, thread).wait;
    leave(groups, thread, &wait);
    stop_wait(clusters, thread, reply);
}

/// Ends waits that a manager has ended, whose threads have left their queues.
pub(crate) fn wake_all(clusters: &mut [ClusterPart], wakes: &[Wake])
    requires { AllLive clusters.old wakes.now }
    ensures { (s : ScenarioView) → Becomes s (λ k. woken k wakes.now) clusters.old clusters.new }
{
    for wake in wakes {
        let reply = Reply {
            status: wake.status,
            out: wake.out,
        };
        stop_wait(clusters, wake.thread, reply);
    }
}
