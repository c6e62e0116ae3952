ghost use Rattle.std.specs.Prelude.{◌≡◌, ◌+◌, ◌-◌, ◌<◌, ◌≤◌, [], None, IfOk, length};
ghost use Rattle.std.specs.List.{slice_index_or};
ghost use Rattle.rk_model.specs.declared.limits.TheConstants.{MOST_CLUSTERS, MOST_PROCESSORS};
ghost use Rattle.rk_model.specs.Scheduling.ReadyQueues.{has_cpu};
ghost use Rattle.rk_cluster.specs.Registers.{change_at, no_changes};
ghost use Rattle.rk_cluster.specs.Clusters.{empty_cluster, settled};

use crate::assign::{Few, assign, is_on_cpu};
use crate::moves::Moves;
use rk_line::Line;
use rk_model::{Bounded, Items, NoMemory, ThreadIx};
use std::alloc::Global;
use std::marker::Model;

/// A cluster. Contracts see its number, its first processor, its ready queue, and the thread that
/// each of its processors has.
#[derive(Debug, Drop)]
pub struct Cluster {
    number: u8,
    first: u8,
    line: Line,
    cpus: Items<Option<ThreadIx>>,
    /// Room for the scheduled threads, as they are found.
    running: Few,
    /// Room for those of them that no processor has.
    fresh: Few,
}

impl Model for Cluster {
    ghost use Rattle.rk_cluster.specs.Clusters.{Cluster as ClusterView, AreAssigned};
    ghost use Rattle.std.specs.Prelude.{◌+◌, ◌<◌, ◌≤◌, length};
    ghost use Rattle.rk_model.specs.declared.limits.TheConstants.{MOST_CLUSTERS, MOST_PROCESSORS};

    ghost Value = { ClusterView };

    ghost view = { λ c. record { number = c.number; first = c.first; line = c.line; cpus = c.cpus } };

    ghost invariant = { λ c. (c.number < MOST_CLUSTERS) × (c.first + length c.cpus ≤ MOST_PROCESSORS) × AreAssigned c.line c.cpus };
}

impl Cluster {
    /// A cluster of so many processors, whose first has the number `first` among those of all
    /// clusters. Its ready queue is empty, and no processor has a thread.
    ///
    /// # Errors
    ///
    /// `NoMemory` where there is no memory for its ready queue and processors.
    pub fn new(alloc: Global, number: u8, first: u8, cpus: u8) -> Result<Cluster, NoMemory>
        requires number { number < MOST_CLUSTERS }
        requires cpus { first + cpus ≤ MOST_PROCESSORS }
        ensures { IfOk result (λ c. c ≡ empty_cluster number first cpus) }
    {
        let free = vec![in alloc; None; cpus as usize]?;
        Ok(Cluster {
            number,
            first,
            line: Line::new(alloc)?,
            cpus: Items::from_vec(free),
            running: Bounded::new(alloc)?,
            fresh: Bounded::new(alloc)?,
        })
    }

    /// Applies the changes to the ready queue, and assigns the processors by it. A scheduled thread
    /// that had a processor keeps it; the others, the most urgent first, take the free processors
    /// in rising number. It takes no memory.
    pub fn settle(&mut self, moves: &Moves)
        ensures { self.new ≡ settled (change_at moves.now) self.old }
    {
        if moves.is_empty() {
            // Reading a field tells that the processors have the runners.
            let _count = self.cpus.len();
            return;
        }
        moves.apply(&mut self.line);
        assign(
            &mut self.cpus,
            &self.line,
            &mut self.running,
            &mut self.fresh,
        );
    }

    /// The thread of a processor, whose number is among those of all clusters. `None` exactly where
    /// it has none.
    pub fn assigned(&self, cpu: u8) -> Option<ThreadIx>
        requires low { self.now.first ≤ cpu }
        requires high { cpu < self.now.first + length self.now.cpus }
        ensures { result ≡ slice_index_or self.now.cpus (cpu - self.now.first) None }
    {
        self.cpus.at((cpu - self.first) as usize)
    }

    /// Whether a processor of the cluster has the thread.
    pub fn is_runner(&self, thread: ThreadIx) -> bool
        ensures { result ≡ has_cpu self.now.cpus thread }
    {
        is_on_cpu(self.cpus.as_slice(), thread)
    }

    /// How many processors the cluster has, at most 8.
    pub fn cpus(&self) -> u8
        ensures count { result ≡ length self.now.cpus }
        ensures few { result ≤ MOST_PROCESSORS }
    {
        self.cpus.len() as u8
    }

    /// The number of its first processor among those of all clusters, of which there are at most 8.
    pub fn first(&self) -> u8
        ensures value { result ≡ self.now.first }
        ensures few { result + length self.now.cpus ≤ MOST_PROCESSORS }
    {
        self.first
    }

    /// The number of the cluster, from 0 to 3.
    pub fn number(&self) -> u8
        ensures value { result ≡ self.now.number }
        ensures few { result < MOST_CLUSTERS }
        ensures still { settled no_changes self.now ≡ self.now }
    {
        self.number
    }
}
