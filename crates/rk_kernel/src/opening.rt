//! The state at opening.

ghost use Rattle.std.specs.Prelude.{◌≡◌, ◌<◌, ◌≤◌, ◌+◌, ℕ, List, [], IfOk, IsSome, length, map};
ghost use Rattle.std.specs.List.{AllByRecursion, slice_index_or};
ghost use Rattle.rk_model.specs.declared.limits.TheConstants.{MOST_CLUSTERS, MOST_OBJECTS, MOST_PROCESSORS};
ghost use Rattle.rk_model.specs.declared.scenario.Init.{Init as InitLine};
ghost use Rattle.rk_model.specs.Names.{Table as TableView, no_objects};
ghost use Rattle.rk_model.specs.Histories.{begun, places, vacant, begun_names, opening};
ghost use Rattle.rk_model.specs.Limits.{AreRunnable, IsWithinLimits};
ghost use Rattle.rk_model.specs.Text.Scenarios.{cpus_in};
ghost use Rattle.rk_groups.specs.declared.group.GroupPart.{GroupPart as GroupView};
ghost use Rattle.rk_parts.specs.Holdings.{holdings};
ghost use Rattle.rk_parts.specs.Joined.{joined, plain_of, threads_of};
ghost use Rattle.rk_parts.specs.Lent.{accounts, number_in, layouts, stored, AreLaid};
ghost use Rattle.rk_parts.specs.Noted.{bare, AreNoted};
ghost use Rattle.rk_parts.specs.Whole.{AreWhole};
ghost use Rattle.rk_kernel.specs.Made.{vacant_group, vacant_part, vacant_parts};
ghost use Rattle.rk_kernel.specs.Ready.{IsReady};

use rk_cluster::{Cluster, Moves};
use rk_groups::group::GroupPart;
use rk_model::{Body, Class, Init, Items, Life, NoMemory, Scenario, Thread, ThreadIx, Wakes};
use rk_mrsp::{Assigned, Chains, Hosting};
use rk_partition::PartitionStore;
use rk_parts::arrival::arrive;
use rk_parts::contribute::contribute;
use rk_parts::helping::host_anew;
use rk_parts::holdings::Holdings;
use rk_parts::lent::make;
use rk_parts::parts::{AllParts, ClusterPart, TablePart};
use rk_parts::settle::settle_parts;
use rk_parts::table::Table;
use rk_parts::threads::Threads;
use rk_period::PeriodStore;
use rk_sem::SemStore;
use rk_signal::BarrierStore;
use rk_wheel::Wheel;
use std::alloc::Global;

/// A body that equals this one.
fn copy_body(alloc: Global, body: &Body) -> Result<Body, NoMemory>
    ensures { IfOk result (λ b. b ≡ body.now) }
{
    Ok(Body {
        name: Items::from_slice(alloc, body.name.as_slice())?,
        lines: Items::from_slice(alloc, body.lines.as_slice())?,
    })
}

/// Bodies that equal these.
fn copy_bodies(alloc: Global, bodies: &[Body]) -> Result<Vec<Body>, NoMemory>
    ensures { IfOk result (λ v. v.items ≡ bodies.now) }
{
    let mut copies = Vec::new(alloc);
    for body in bodies {
        copies.push(copy_body(alloc, body)?)?;
    }
    Ok(copies)
}

/// A scenario that equals this one.
fn copy_scenario(alloc: Global, scenario: &Scenario) -> Result<Scenario, NoMemory>
    ensures { IfOk result (λ s. s ≡ scenario.now) }
{
    let bodies = copy_bodies(alloc, scenario.bodies.as_slice())?;
    Ok(Scenario {
        clusters: Items::from_slice(alloc, scenario.clusters.as_slice())?,
        horizon: scenario.horizon,
        limit: scenario.limit,
        bodies: Items::from_vec(bodies),
        inits: Items::from_slice(alloc, scenario.inits.as_slice())?,
    })
}

/// How many processors a cluster has; none where there is no such cluster.
fn count_at(counts: &[u8], cluster: usize) -> u8
    ensures { result ≡ slice_index_or counts.now cluster 0 }
{
    match counts.get(cluster) {
        Some(count) => *count,
        None => 0,
    }
}

/// The part of a cluster of so many processors, none of which has a thread.
fn make_cluster(alloc: Global, number: u8, first: u8, count: u8) -> Result<ClusterPart, NoMemory>
    requires number { number < MOST_CLUSTERS }
    requires cpus { first + count ≤ MOST_PROCESSORS }
    ensures { IfOk result (λ part. bare part ≡ vacant_part number first count) }
{
    Ok(ClusterPart {
        present: 0,
        lined: Cluster::new(alloc, number, first, count)?,
        timers: Wheel::new(alloc)?,
        threads: Threads::new(alloc)?,
        holdings: Holdings::new(alloc)?,
        moves: Moves::new(alloc)?,
        chains: Chains::new(alloc)?,
        seats: Assigned::new(alloc)?,
        hosting: Hosting::new(alloc)?,
    })
}

/// The parts of the clusters, of which no processor has a thread. Their processors are numbered
/// through all of them.
fn make_clusters(alloc: Global, counts: &[u8]) -> Result<[ClusterPart; 4], NoMemory>
    requires clusters { length counts.now ≤ MOST_CLUSTERS }
    requires cpus { cpus_in counts.now ≤ MOST_PROCESSORS }
    ensures { IfOk result (λ parts. map bare parts ≡ vacant_parts counts.now) }
{
    let second = count_at(counts, 0);
    let third = second + count_at(counts, 1);
    let fourth = third + count_at(counts, 2);
    Ok([
        make_cluster(alloc, 0, 0, second)?,
        make_cluster(alloc, 1, second, count_at(counts, 1))?,
        make_cluster(alloc, 2, third, count_at(counts, 2))?,
        make_cluster(alloc, 3, fourth, count_at(counts, 3))?,
    ])
}

/// The part of a group, in which no object lives.
fn make_group(alloc: Global, number: u8) -> Result<GroupPart, NoMemory>
    requires { number < 4 }
    ensures { IfOk result (λ group. group ≡ vacant_group number) }
{
    Ok(GroupPart {
        present: 0,
        semaphores: SemStore::new(alloc, number)?,
        barriers: BarrierStore::new(alloc, number)?,
        partitions: PartitionStore::new(alloc, number)?,
        periods: PeriodStore::new(alloc, number)?,
        wakes: Wakes::new(alloc)?,
    })
}

/// The parts of a state in which there is no task yet.
fn make_vacant(alloc: Global, scenario: &Scenario) -> Result<AllParts, NoMemory>
    requires { IsWithinLimits scenario.now }
    ensures vacant { IfOk result (λ all. plain_of all ≡ vacant scenario.now) }
    ensures whole { IfOk result (λ all. AreWhole all) }
    ensures noted { IfOk result (λ all. AreNoted (length scenario.now.clusters) all.clusters) }
{
    let clusters = make_clusters(alloc, scenario.clusters.as_slice())?;
    Ok(AllParts {
        scenario: copy_scenario(alloc, scenario)?,
        clusters,
        groups: [
            make_group(alloc, 0)?,
            make_group(alloc, 1)?,
            make_group(alloc, 2)?,
            make_group(alloc, 3)?,
        ],
        table: TablePart {
            present: 0,
            names: Table::new(alloc)?,
        },
    })
}

/// The thread of an init line.
fn begin(scenario: &Scenario, init: &Init) -> Thread
    requires { AreRunnable scenario.now.bodies }
    ensures { result ≡ begun scenario.now init.now }
{
    let thread = Thread {
        life: Life::Started,
        home: init.cluster,
        base: init.prio,
        body: init.body,
        ..Thread::absent()
    };
    arrive(scenario, thread, 1)
}

/// Starts the tasks of the init lines, each in the part of its home.
fn start_all(scenario: &Scenario, clusters: &mut [ClusterPart])
    requires within { IsWithinLimits scenario.now }
    requires none { threads_of clusters.old ≡ places MOST_OBJECTS [] }
    requires laid { AreLaid scenario.now.clusters (layouts clusters.old) }
    requires lent { (c : ℕ) → c < length scenario.now.clusters → IsSome (number_in clusters.old c) }
    ensures started { (table : TableView) (groups : List GroupView) → joined scenario.now table clusters.new groups ≡ record (joined scenario.now table clusters.old groups) { threads = places MOST_OBJECTS (map (begun scenario.now) scenario.now.inits) } }
    ensures laid { AreLaid scenario.now.clusters (layouts clusters.new) }
    ensures kept { stored clusters.new ≡ stored clusters.old }
    ensures accounts { accounts clusters.new ≡ accounts clusters.old }
    ensures held { holdings clusters.new ≡ holdings clusters.old }
{
    for at in 0..scenario.inits.len() {
        let thread = begin(scenario, &scenario.inits.at(at));
        make(clusters, ThreadIx::new(at as u8 + 1), thread);
    }
}

/// Names the tasks of the init lines, which take the first indices.
fn name_all(table: &mut Table, inits: &[Init])
    requires none { table.old ≡ no_objects }
    requires few { length inits.now ≤ MOST_OBJECTS }
    requires named { AllByRecursion (λ (init : InitLine). 1 ≤ init.name.bits) inits.now }
    ensures { table.new ≡ record no_objects { tasks = begun_names inits.now } }
{
    for at in 0..inits.len() {
        table.make(Class::Task, inits[at].name);
    }
}

/// The parts of the state at opening.
pub(crate) fn make_opening(alloc: Global, scenario: &Scenario) -> Result<AllParts, NoMemory>
    requires { IsWithinLimits scenario.now }
    ensures opening { IfOk result (λ all. plain_of all ≡ opening scenario.now) }
    ensures ready { IfOk result (λ all. IsReady all) }
{
    let mut all = make_vacant(alloc, scenario)?;
    start_all(scenario, &mut all.clusters);
    name_all(&mut all.table.names, scenario.inits.as_slice());
    contribute(&mut all.clusters);
    settle_parts(&mut all.clusters, &None);
    host_anew(&mut all.clusters);
    Ok(all)
}
