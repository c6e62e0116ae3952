//! The timers of the lent parts.

ghost use Rattle.std.specs.Prelude.{◌≡◌, ◌++◌, ◌∷◌, [], IsSome, true};
ghost use Rattle.rk_model.specs.Directives.Objects.{has_begun};
ghost use Rattle.rk_model.specs.Scheduling.Timers.{due_at, head_of, times_armed, without_timer};
ghost use Rattle.rk_parts.specs.Joined.{numbered, present_of, thread_lent, timers_lent};
ghost use Rattle.rk_parts.specs.Lent.{number_in, PutsTimers, TakesDue};
ghost use Rattle.rk_wheel.specs.Wheels.{IsKnown};

use crate::lent::{number_of, place_of};
use crate::parts::ClusterPart;
use crate::ticks::present;
use rk_model::{Armed, Armer, ThreadIx};
use rk_wheel::Wheel;

/// Arms a timer in the home of a thread that lives, as the last there.
pub fn arm(clusters: &mut [ClusterPart], thread: ThreadIx, who: Armer, due: u64)
    requires lives { has_begun (thread_lent clusters.old thread).life ≡ true }
    requires unarmed { times_armed who (timers_lent clusters.old thread) ≡ 0 }
    requires known { IsKnown who }
    ensures { PutsTimers clusters.old thread (λ timers. timers ++ (record { who = who; due = due }) ∷ []) clusters.new }
{
    // Reading the index tells its range.
    let _index = thread.at();
    if let Some(at) = place_of(clusters, thread) {
        clusters[at].timers.arm(who, due);
    }
}

/// Cancels the timer of one in the home of a thread that lives, if it has one there.
pub fn cancel(clusters: &mut [ClusterPart], thread: ThreadIx, who: Armer)
    requires { has_begun (thread_lent clusters.old thread).life ≡ true }
    ensures { PutsTimers clusters.old thread (without_timer who) clusters.new }
{
    // Reading the index tells its range.
    let _index = thread.at();
    if let Some(at) = place_of(clusters, thread) {
        remove(&mut clusters[at].timers, &who);
    }
}

/// Cancels the timer of one, if it has one.
#[tactic(auto, using(rk_wheel::proofs::WheelLemmas::without_none))]
fn remove(timers: &mut Wheel, who: &Armer)
    ensures { timers.new ≡ without_timer who.now timers.old }
{
    if timers.due(*who).is_some() {
        timers.cancel(*who);
    }
}

/// Takes out the first timer of a lent cluster that is due now.
pub fn take_due_of(clusters: &mut [ClusterPart], cluster: u8) -> Option<Armed>
    requires { IsSome (number_in clusters.old cluster) }
    ensures first { result ≡ head_of (due_at (present_of clusters.old) (numbered [] clusters.old cluster).timers) }
    ensures taken { TakesDue clusters.old cluster clusters.new }
{
    let now = u64::from(present(clusters));
    match number_of(clusters, cluster) {
        Some(at) => clusters[at].timers.take_due(now),
        None => None,
    }
}
