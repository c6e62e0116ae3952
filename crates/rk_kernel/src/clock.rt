//! A step of the clock: work is charged, and the timers that are due fire.

ghost use Rattle.std.specs.Prelude.{◌≡◌, ◌<◌, ◌≤◌, None, length};
ghost use Rattle.rk_model.specs.declared.limits.TheConstants.{MOST_LINES, MOST_TICKS};
ghost use Rattle.rk_model.specs.declared.scenario.Scenario.{Scenario as ScenarioView};
ghost use Rattle.rk_model.specs.Directives.Waits.{reply_at_timer};
ghost use Rattle.rk_model.specs.Scheduling.Running.{least};
ghost use Rattle.rk_model.specs.Scheduling.Ticks.{charged, charge_from, pass, rung, fire_cluster, fire_all};
ghost use Rattle.rk_model.specs.Limits.{AreRunnable};
ghost use Rattle.rk_parts.specs.Firing.{due_now, FiresFirst};
ghost use Rattle.rk_parts.specs.Holdings.{holdings};
ghost use Rattle.rk_parts.specs.Hosted.{AreHosted};
ghost use Rattle.rk_parts.specs.Joined.{plain_of, threads_of};
ghost use Rattle.rk_parts.specs.Lent.{frame};
ghost use Rattle.rk_parts.specs.Noted.{AreNoted};
ghost use Rattle.rk_directives.specs.Does.{BecomesBoth, MayRing, untouched};
ghost use Rattle.rk_kernel.specs.Manned.{RunOnce};
ghost use Rattle.rk_kernel.specs.Ready.{IsReady};
ghost use Rattle.rk_kernel.specs.Step.{IsTick};

use crate::steps::CoreTick;
use rk_directives::outcomes::bare;
use rk_directives::periods::pass_end;
use rk_directives::waits::end_wait;
use rk_groups::group::GroupPart;
use rk_model::{Armer, Reply, Scenario, Status, Thread, View, Wait};
use rk_parts::arrival::arrive;
use rk_parts::contribute::contribute;
use rk_parts::helping::host_parts;
use rk_parts::lent::{renew, thread_of};
use rk_parts::parts::{AllParts, ClusterPart};
use rk_parts::processors::{count_cpus, least_of, view_on};
use rk_parts::settle::settle_parts;
use rk_parts::ticks::{pass_tick, present};
use rk_parts::timers::take_due_of;

/// The thread after a tick through which it ran.
fn charged(scenario: &Scenario, thread: Thread) -> Thread
    requires bodies { AreRunnable scenario.now.bodies }
    requires line { 0 < thread.left → thread.line ≤ MOST_LINES }
    requires computed { thread.computed ≤ MOST_TICKS }
    ensures { result ≡ charged scenario.now thread }
{
    if thread.left == 0 {
        thread
    } else if thread.left == 1 {
        let computed = thread.computed + 1;
        let next = arrive(scenario, thread, thread.line + 1);
        Thread { computed, ..next }
    } else {
        Thread {
            left: thread.left - 1,
            computed: thread.computed + 1,
            ..thread
        }
    }
}

/// Charges each thread that runs.
fn charge_all(all: &mut AllParts)
    requires ready { IsReady all.old }
    requires once { RunOnce (plain_of all.old) }
    ensures charged { plain_of all.new ≡ record (plain_of all.old) { threads = charge_from (plain_of all.old) 1 (threads_of all.old.clusters) } }
    ensures kept { frame all.new.clusters ≡ frame all.old.clusters }
    ensures held { holdings all.new.clusters ≡ holdings all.old.clusters }
    ensures noted { AreNoted (length all.old.scenario.clusters) all.new.clusters }
    ensures hosted { AreHosted all.new.clusters }
    ensures rest { untouched all.new ≡ untouched all.old }
{
    for cpu in 0..count_cpus(&all.scenario) {
        if let View::Runs(thread) = view_on(&all.clusters, cpu) {
            // Reading the index tells its range.
            let _index = thread.at();
            let next = charged(&all.scenario, thread_of(&all.clusters, thread));
            renew(&mut all.clusters, thread, next);
        }
    }
}

/// A tick passes, before any timer fires.
fn pass(all: &mut AllParts)
    requires ready { IsReady all.old }
    requires once { RunOnce (plain_of all.old) }
    requires below { (plain_of all.old).present < all.old.scenario.horizon }
    ensures passed { plain_of all.new ≡ pass (plain_of all.old) }
    ensures ready { IsReady all.new }
{
    charge_all(all);
    pass_tick(all);
}

/// What a wait ends with when its timer fires.
fn reply_at_timer(wait: Option<Wait>) -> Reply
    ensures { result ≡ reply_at_timer wait }
{
    match wait {
        Some(Wait::ForTime) | None => bare(Status::Successful),
        Some(Wait::ForEvents(_, _))
        | Some(Wait::AtBarrier(_))
        | Some(Wait::ForPeriod(_))
        | Some(Wait::ForSemaphore(_, _)) => bare(Status::Timeout),
    }
}

/// A timer that was taken out fires: the wait of its thread ends, or the end of its period passes.
fn rung(clusters: &mut [ClusterPart], groups: &mut [GroupPart], who: Armer)
    requires { MayRing clusters.old groups.old who }
    ensures { (s : ScenarioView) → BecomesBoth s (λ k. rung k who) clusters.old groups.old clusters.new groups.new }
{
    match who {
        Armer::Thread(thread) => {
            let wait = thread_of(clusters, thread).wait;
            end_wait(clusters, groups, thread, reply_at_timer(wait));
        }
        Armer::Period(index) => pass_end(clusters, groups, u16::from(index)),
    }
}

/// The first timer of a cluster that is due now fires, and the state settles; says whether there
/// was one.
fn fire_first(all: &mut AllParts, cluster: u8) -> bool
    requires cluster { cluster < length all.old.scenario.clusters }
    requires ready { IsReady all.old }
    ensures fires { FiresFirst cluster (due_now (plain_of all.old) cluster) (plain_of all.old) result (plain_of all.new) }
    ensures ready { IsReady all.new }
    ensures scenario { all.new.scenario ≡ all.old.scenario }
{
    match take_due_of(&mut all.clusters, cluster) {
        None => false,
        Some(timer) => {
            rung(&mut all.clusters, &mut all.groups, timer.who);
            contribute(&mut all.clusters);
            settle_parts(&mut all.clusters, &None);
            host_parts(&mut all.clusters);
            true
        }
    }
}

/// All timers of a cluster that are due now fire.
fn fire_cluster(all: &mut AllParts, cluster: u8)
    requires cluster { cluster < length all.old.scenario.clusters }
    requires ready { IsReady all.old }
    ensures fired { plain_of all.new ≡ fire_cluster (plain_of all.old) cluster }
    ensures ready { IsReady all.new }
    ensures scenario { all.new.scenario ≡ all.old.scenario }
{
    'firing: while fire_first(all, cluster) {}
}

/// All timers that are due now fire, cluster by cluster.
fn fire_all(all: &mut AllParts)
    requires { IsReady all.old }
    ensures fired { plain_of all.new ≡ fire_all (plain_of all.old) }
    ensures ready { IsReady all.new }
{
    for cluster in 0..all.scenario.clusters.len() {
        fire_cluster(all, cluster as u8);
    }
}

/// A step of the clock where no processor has a directive.
pub(crate) fn tick_quiet(all: &mut AllParts) -> CoreTick
    requires ready { IsReady all.old }
    requires once { RunOnce (plain_of all.old) }
    requires quiet { least (plain_of all.old) ≡ None }
    ensures step { IsTick (plain_of all.old) result (plain_of all.new) }
    ensures ready { IsReady all.new }
{
    if present(&all.clusters) >= all.scenario.horizon {
        return CoreTick::Ended;
    }
    pass(all);
    fire_all(all);
    CoreTick::Ticked
}

/// A step of the clock.
pub(crate) fn tick_core(all: &mut AllParts) -> CoreTick
    requires ready { IsReady all.old }
    requires once { RunOnce (plain_of all.old) }
    ensures step { IsTick (plain_of all.old) result (plain_of all.new) }
    ensures ready { IsReady all.new }
{
    match least_of(&all.scenario, &all.clusters) {
        Some(calling) => CoreTick::NotYet(calling.cpu),
        None => tick_quiet(all),
    }
}
