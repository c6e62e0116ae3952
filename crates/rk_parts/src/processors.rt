//! What the processors do whose parts are lent.

ghost use Rattle.std.specs.Prelude.{◌≡◌, ◌<◌, ◌≤◌, List, length, Some, IfSome};
ghost use Rattle.rk_model.specs.declared.limits.TheConstants.{MOST_PROCESSORS};
ghost use Rattle.rk_model.specs.declared.scenario.Scenario.{Scenario as ScenarioView};
ghost use Rattle.rk_model.specs.Names.{Table};
ghost use Rattle.rk_model.specs.Scheduling.Running.{view_of, running, ready, caller, least, why_of};
ghost use Rattle.rk_model.specs.Text.Scenarios.{cpus_in};
ghost use Rattle.rk_groups.specs.declared.group.GroupPart.{GroupPart};
ghost use Rattle.rk_groups.specs.GroupObjects.{semaphores_of};
ghost use Rattle.rk_parts.specs.Holdings.{AreHeld, holdings};
ghost use Rattle.rk_parts.specs.Hosted.{hosted_in, AreHosted, ShowRunning};
ghost use Rattle.rk_parts.specs.Joined.{joined};
ghost use Rattle.rk_parts.specs.Lent.{layouts, AreLaid};
ghost use Rattle.rk_parts.specs.Seats.{seat_in, is_seat, seat_of};

use crate::bearing::is_spinning;
use crate::lent::thread_of;
use crate::parts::ClusterPart;
use crate::standing::spins;
use rk_cluster::Cluster;
use rk_model::{Scenario, ThreadIx, View, Why};

/// A processor that has a directive, and the thread whose directive it is.
#[derive(Clone, Copy, Debug, PartialEq, Eq)]
pub struct Calling {
    /// The number of the processor.
    pub cpu: u8,
    /// The thread.
    pub thread: ThreadIx,
}

/// Whether a cluster has a processor.
fn has_seat(cluster: &Cluster, cpu: u8) -> bool
    ensures { result ≡ is_seat cluster.now.first (length cluster.now.cpus) cpu }
{
    cluster.first() <= cpu && cpu < cluster.first() + cluster.cpus()
}

/// The thread that a processor has.
pub(crate) fn cpu_of(clusters: &[ClusterPart], cpu: u8) -> Option<ThreadIx>
    ensures { result ≡ seat_in clusters.now cpu }
{
    for part in clusters {
        if has_seat(&part.lined, cpu) {
            return part.lined.assigned(cpu);
        }
    }
    None
}

/// The thread that a processor helps, as it is noted, if it helps one.
fn helped_of(clusters: &[ClusterPart], cpu: u8) -> Option<ThreadIx>
    ensures { result ≡ hosted_in clusters.now cpu }
{
    for part in clusters {
        if has_seat(&part.lined, cpu) {
            return part.hosting.helped(cpu);
        }
    }
    None
}

/// How many processors the clusters of a scenario have.
pub fn count_cpus(scenario: &Scenario) -> u8
    requires { cpus_in scenario.now.clusters ≤ MOST_PROCESSORS }
    ensures { result ≡ cpus_in scenario.now.clusters }
{
    let mut count = 0;
    for cpus in scenario.clusters.as_slice() {
        count += *cpus;
    }
    count
}

/// What a processor with a thread does. It is asked only where the thread spins.
#[cold]
#[inline(never)]
fn view_with(clusters: &[ClusterPart], cpu: u8, thread: ThreadIx) -> View
    ensures { (s : ScenarioView) (table : Table) (groups : List GroupPart) → result ≡ view_of (joined s table clusters.now groups) (Some thread) (hosted_in clusters.now cpu) }
{
    match helped_of(clusters, cpu) {
        Some(other) => View::Runs(other),
        None => {
            if spins(clusters, thread) {
                View::Spins(thread)
            } else {
                View::Runs(thread)
            }
        }
    }
}

/// What a processor does.
pub fn view_on(clusters: &[ClusterPart], cpu: u8) -> View
    ensures { (s : ScenarioView) (table : Table) (groups : List GroupPart) → ShowRunning s groups clusters.now → result ≡ running (joined s table clusters.now groups) cpu }
{
    match cpu_of(clusters, cpu) {
        None => View::Idle,
        Some(thread) => {
            if spins(clusters, thread) {
                view_with(clusters, cpu, thread)
            } else {
                View::Runs(thread)
            }
        }
    }
}

/// The thread that has a directive on a processor that does this.
#[cold]
#[inline(never)]
fn ready_in(clusters: &[ClusterPart], view: View) -> Option<ThreadIx>
    ensures { (s : ScenarioView) (table : Table) (groups : List GroupPart) → result ≡ ready (joined s table clusters.now groups) view }
{
    match view {
        View::Runs(thread) => {
            if thread_of(clusters, thread).left == 0 {
                Some(thread)
            } else {
                None
            }
        }
        View::Idle | View::Spins(_) => None,
    }
}

/// The thread that has a directive on a processor.
pub fn caller_on(clusters: &[ClusterPart], cpu: u8) -> Option<ThreadIx>
    ensures { (s : ScenarioView) (table : Table) (groups : List GroupPart) → ShowRunning s groups clusters.now → result ≡ caller (joined s table clusters.now groups) cpu }
{
    match cpu_of(clusters, cpu) {
        None => None,
        Some(thread) => {
            let found = thread_of(clusters, thread);
            if is_spinning(found.wait) {
                ready_in(clusters, view_with(clusters, cpu, thread))
            } else if found.left == 0 {
                Some(thread)
            } else {
                None
            }
        }
    }
}

/// Why a processor has no directive.
pub fn why_not(clusters: &[ClusterPart], cpu: u8) -> Why
    ensures { (s : ScenarioView) (table : Table) (groups : List GroupPart) → ShowRunning s groups clusters.now → result ≡ why_of (running (joined s table clusters.now groups) cpu) }
{
    match view_on(clusters, cpu) {
        View::Idle => Why::Idle,
        View::Spins(_) => Why::Spins,
        View::Runs(_) => Why::Computes,
    }
}

/// The lowest-numbered processor that has a directive, and its thread.
pub fn least_of(scenario: &Scenario, clusters: &[ClusterPart]) -> Option<Calling>
    requires laid { AreLaid scenario.now.clusters (layouts clusters.now) }
    requires few { cpus_in scenario.now.clusters ≤ MOST_PROCESSORS }
    requires hosted { AreHosted clusters.now }
    ensures least { (table : Table) (groups : List GroupPart) → AreHeld (holdings clusters.now) (semaphores_of groups) → seat_of result ≡ least (joined scenario.now table clusters.now groups) }
    ensures found { (table : Table) (groups : List GroupPart) → AreHeld (holdings clusters.now) (semaphores_of groups) → IfSome result (λ calling. (caller (joined scenario.now table clusters.now groups) calling.cpu ≡ Some calling.thread) × (calling.cpu < cpus_in scenario.now.clusters)) }
{
    for cpu in 0..count_cpus(scenario) {
        if let Some(thread) = caller_on(clusters, cpu) {
            return Some(Calling { cpu, thread });
        }
    }
    None
}
