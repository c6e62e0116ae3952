//! The nine parts of the running kernel: four of clusters, four of groups of objects, and the table.
//!
//! A call that is lent some of the cluster parts and group parts works on them alone.

use crate::holdings::Holdings;
use crate::table::Table;
use crate::threads::Threads;
use rk_cluster::{Cluster, Moves};
use rk_groups::group::GroupPart;
use rk_model::Scenario;
use rk_mrsp::{Assigned, Chains, Hosting};
use rk_wheel::Wheel;

/// The part of a cluster. That of a cluster that the scenario lacks has no processors and no threads.
#[derive(Debug, Drop)]
pub struct ClusterPart {
    /// The present tick.
    pub present: u32,
    /// The ready queue of the cluster's eligible threads, and the thread that each processor has.
    pub lined: Cluster,
    /// The armed timers of the cluster's threads.
    pub timers: Wheel,
    /// A place for each of the 64 threads; there is no thread at those of other homes.
    pub threads: Threads,
    /// Which semaphores those threads own.
    pub holdings: Holdings,
    /// Room for what settling does to the threads of the cluster.
    pub moves: Moves,
    /// Room for the chains of threads, and for the threads that processors have, from which it is
    /// found whom they help.
    pub chains: Chains,
    pub seats: Assigned,
    /// Whom the processors of the cluster help.
    pub hosting: Hosting,
}

/// The part of the table: the names and the indices of the objects of all classes.
#[derive(Debug, Drop)]
pub struct TablePart {
    /// The present tick.
    pub present: u32,
    pub names: Table,
}

/// All parts of the running kernel. The scenario stands once beside them, and is lent with them.
#[derive(Debug, Drop)]
pub struct AllParts {
    pub scenario: Scenario,
    /// The parts of the clusters 0 to 3.
    pub clusters: [ClusterPart; 4],
    /// The parts of the groups 0 to 3.
    pub groups: [GroupPart; 4],
    pub table: TablePart,
}
