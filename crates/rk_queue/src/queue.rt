ghost use Rattle.std.specs.Prelude.{◌≡◌, ◌≤◌, ◌<◌, [], ◌∷◌, ◌==◌, Some, true, false, IfOk, IfSome, IfNone, length};
ghost use Rattle.std.specs.List.{position_or_len};
ghost use Rattle.rk_model.specs.Lists.{has, times};
ghost use Rattle.rk_model.specs.Queues.{Queue, empty, threads, clusters, waits_in, without, cluster_of, without_turn, with_turn, turns_kept, turns_taken, entered, left_by, reordered, earliest, of_cluster, of_prio, lesser, least_prio, first_by_turns, first_of, served, served_by, ended, IsQueue};

use rk_model::limits::MOST_OBJECTS;
use rk_model::{
    Bounded, NoMemory, Order, Prio, Status, ThreadIx, Waiter, Wake, Wakes, position_of,
};
use std::alloc::Global;
use std::marker::Model;

/// A queue of at most 64 threads, each of which waits in it once, and the turns of their clusters,
/// of which each has one. Contracts see the waiters in order of arrival, the order in which they
/// are served, and the turns.
#[derive(Debug, Drop)]
pub struct ThreadQueue {
    arrivals: Bounded<Waiter, MOST_OBJECTS>,
    order: Order,
    turns: Bounded<u8, MOST_OBJECTS>,
}

impl Model for ThreadQueue {
    ghost use Rattle.rk_model.specs.Queues.{Queue, IsQueue};

    ghost Value = { Queue };

    ghost view = { λ q. record { arrivals = q.arrivals; order = q.order; turns = q.turns } };

    ghost invariant = { λ q. IsQueue q.arrivals q.turns };
}

impl ThreadQueue {
    /// An empty queue of an order, with room for 64 threads.
    ///
    /// # Errors
    ///
    /// `NoMemory` where there is no memory for them.
    pub fn new(alloc: Global, order: Order) -> Result<ThreadQueue, NoMemory>
        ensures { IfOk result (λ q. q ≡ empty order) }
    {
        Ok(ThreadQueue {
            arrivals: Bounded::new(alloc)?,
            order,
            turns: Bounded::new(alloc)?,
        })
    }

    /// The order in which it serves.
    pub fn order(&self) -> Order
        ensures { result ≡ self.now.order }
    {
        self.order
    }

    /// How many threads wait, at most 64.
    pub fn len(&self) -> usize
        ensures value { result ≡ length self.now.arrivals }
        ensures few { result ≤ MOST_OBJECTS }
    {
        self.arrivals.len()
    }

    /// The waiters, in order of arrival. Its contract also tells that each thread waits once and is
    /// one of 1 to 64, and that each cluster has one turn exactly where a waiter is of it.
    pub fn waiters(&self) -> &[Waiter]
        ensures value { result.now ≡ self.now.arrivals }
        ensures queue { IsQueue self.now.arrivals self.now.turns }
    {
        self.arrivals.as_slice()
    }

    /// Whether a thread waits in the queue.
    pub fn contains(&self, thread: ThreadIx) -> bool
        ensures { result ≡ waits_in self.now thread }
    {
        position_of(self.arrivals.as_slice(), thread) < self.arrivals.len()
    }

    /// Whether a waiter of a cluster is in the queue.
    pub fn waits_from(&self, cluster: u8) -> bool
        ensures { result ≡ has (clusters self.now.arrivals) cluster }
    {
        has_cluster(self.arrivals.as_slice(), cluster)
    }

    /// Puts a waiter behind all others. Its cluster gets the last turn, where it has none. It takes
    /// no memory.
    pub fn enqueue(&mut self, waiter: Waiter)
        requires { waits_in self.old waiter.thread ≡ false }
        ensures { self.new ≡ entered waiter self.old }
    {
        // Reading the index tells its range.
        let _index = waiter.thread.at();
        give_turn(&mut self.turns, waiter.cluster);
        self.arrivals.push(waiter);
    }

    /// The thread to be served next. In a queue of order `Fifo` it is that of the earliest arrival;
    /// in one of order `Priority` it is, among the waiters of the cluster whose turn is first, that
    /// of the earliest of those whose priority is least. `None` exactly where none waits.
    pub fn first(&self) -> Option<ThreadIx>
        ensures value { result ≡ first_of self.now }
        ensures waits { IfSome result (λ t. waits_in self.now t ≡ true) }
        ensures none { IfNone result (self.now.arrivals ≡ []) }
    {
        self.to_serve()
    }

    /// The thread to be served next.
    fn to_serve(&self) -> Option<ThreadIx>
        ensures value { result ≡ first_of self.now }
        ensures queue { IsQueue self.now.arrivals self.now.turns }
    {
        match self.order {
            Order::Fifo => earliest(self.arrivals.as_slice()),
            Order::Priority => first_by_turns(self.turns.as_slice(), self.arrivals.as_slice()),
        }
    }

    /// Takes the thread out that `first` gives, and gives it. Its cluster goes last in the turns
    /// where it has more waiters, and leaves them otherwise.
    pub fn take_first(&mut self) -> Option<ThreadIx>
        ensures value { result ≡ first_of self.old }
        ensures rest { self.new ≡ served self.old }
        ensures waits { IfSome result (λ t. waits_in self.old t ≡ true) }
        ensures none { IfNone result (self.old.arrivals ≡ []) }
    {
        let thread = self.first()?;
        self.serve(thread);
        Some(thread)
    }

    /// Takes a thread out as one that is served.
    fn serve(&mut self, thread: ThreadIx)
        requires { waits_in self.old thread ≡ true }
        ensures { self.new ≡ served_by thread self.old }
    {
        let cluster = take_waiter(&mut self.arrivals, thread);
        pass_turn(&mut self.turns, cluster, self.arrivals.as_slice());
    }

    /// Takes a thread out that leaves the queue without being served. Its cluster keeps its turn
    /// where it has more waiters, and leaves the turns otherwise.
    pub fn extract(&mut self, thread: ThreadIx)
        requires { waits_in self.old thread ≡ true }
        ensures { self.new ≡ left_by thread self.old }
    {
        let cluster = take_waiter(&mut self.arrivals, thread);
        keep_turn(&mut self.turns, cluster, self.arrivals.as_slice());
    }

    /// Gives a thread another priority at its place.
    pub fn reorder(&mut self, thread: ThreadIx, prio: Prio)
        requires { waits_in self.old thread ≡ true }
        ensures { self.new ≡ reordered thread prio self.old }
    {
        let at = position_of(self.arrivals.as_slice(), thread);
        let cluster = self.arrivals.as_slice()[at].cluster;
        self.arrivals.set(
            at,
            Waiter {
                thread,
                cluster,
                prio,
            },
        );
    }

    /// Adds a wake with a status for each waiter, in order of arrival.
    pub fn wake_all(&self, status: Status, wakes: &mut Wakes)
        requires { wakes.old ≡ [] }
        ensures { wakes.new ≡ ended status self.now.arrivals }
    {
        let _count = self.len();
        for waiter in self.waiters() {
            wakes.push(Wake {
                thread: waiter.thread,
                status,
                out: 0,
            });
        }
    }

    /// Takes all threads out.
    pub fn clear(&mut self)
        ensures { self.new ≡ empty self.old.order }
    {
        self.arrivals.clear();
        self.turns.clear();
    }

    /// Takes all threads out, and gives the queue an order.
    pub fn reset(&mut self, order: Order)
        ensures { self.new ≡ empty order }
    {
        self.clear();
        self.order = order;
    }
}

/// Takes the waiter of a thread out, and gives its cluster.
fn take_waiter(arrivals: &mut Bounded<Waiter, MOST_OBJECTS>, thread: ThreadIx) -> u8
    requires waits { has (threads arrivals.old) thread ≡ true }
    requires once { times thread (threads arrivals.old) ≤ 1 }
    ensures cluster { result ≡ cluster_of thread arrivals.old }
    ensures rest { arrivals.new ≡ without thread arrivals.old }
{
    let at = position_of(arrivals.as_slice(), thread);
    let waiter = arrivals.take(at);
    waiter.cluster
}

/// Gives a cluster the last turn, where it has none.
fn give_turn(turns: &mut Bounded<u8, MOST_OBJECTS>, cluster: u8)
    requires { length turns.old < MOST_OBJECTS }
    ensures { turns.new ≡ with_turn cluster turns.old }
{
    if !has_turn(turns.as_slice(), cluster) {
        turns.push(cluster);
    }
}

/// Takes the turn of a cluster out, unless one of the waiters is of it.
fn keep_turn(turns: &mut Bounded<u8, MOST_OBJECTS>, cluster: u8, waiters: &[Waiter])
    requires { times cluster turns.old ≡ 1 }
    ensures { turns.new ≡ turns_kept cluster waiters.now turns.old }
{
    if !has_cluster(waiters, cluster) {
        take_turn(turns, cluster);
    }
}

/// Takes the turn of a cluster out, and gives it the last one where one of the waiters is of it.
fn pass_turn(turns: &mut Bounded<u8, MOST_OBJECTS>, cluster: u8, waiters: &[Waiter])
    requires one { times cluster turns.old ≡ 1 }
    requires few { length turns.old ≤ MOST_OBJECTS }
    ensures { turns.new ≡ turns_taken cluster waiters.now turns.old }
{
    take_turn(turns, cluster);
    if has_cluster(waiters, cluster) {
        turns.push(cluster);
    }
}

/// Takes the turn of a cluster out.
fn take_turn(turns: &mut Bounded<u8, MOST_OBJECTS>, cluster: u8)
    requires { times cluster turns.old ≡ 1 }
    ensures { turns.new ≡ without_turn cluster turns.old }
{
    let at = turn_of(turns.as_slice(), cluster);
    turns.take(at);
}

/// How many turns are in front of that of a cluster; the number of turns where it has none.
fn turn_of(turns: &[u8], cluster: u8) -> usize
    ensures { result ≡ position_or_len (λ turn. turn == cluster) turns.now }
{
    for (at, turn) in turns.iter().enumerate() {
        if *turn == cluster {
            return at;
        }
    }
    turns.len()
}

/// Whether a cluster has a turn.
fn has_turn(turns: &[u8], cluster: u8) -> bool
    ensures { result ≡ has turns.now cluster }
{
    turn_of(turns, cluster) < turns.len()
}

/// Whether one of the waiters is of a cluster.
fn has_cluster(waiters: &[Waiter], cluster: u8) -> bool
    ensures { result ≡ has (clusters waiters.now) cluster }
{
    for waiter in waiters {
        if waiter.cluster == cluster {
            return true;
        }
    }
    false
}

/// The thread of the earliest of the waiters.
fn earliest(waiters: &[Waiter]) -> Option<ThreadIx>
    ensures { result ≡ earliest waiters.now }
{
    match waiters {
        [] => None,
        [first, ..] => Some(first.thread),
    }
}

/// The thread to be served of the cluster whose turn is first.
fn first_by_turns(turns: &[u8], waiters: &[Waiter]) -> Option<ThreadIx>
    ensures { result ≡ first_by_turns turns.now waiters.now }
{
    let cluster = match turns {
        [] => return None,
        [first, ..] => *first,
    };
    let prio = least_prio(waiters, cluster)?;
    earliest_of(waiters, cluster, prio)
}

/// The least priority of the waiters of a cluster; `None` exactly where none is of it.
fn least_prio(waiters: &[Waiter], cluster: u8) -> Option<Prio>
    ensures { result ≡ least_prio (of_cluster cluster waiters.now) }
{
    let mut least = None;
    for waiter in waiters {
        if waiter.cluster == cluster {
            least = Some(lesser(waiter.prio, least));
        }
    }
    least
}

/// The lesser of a priority and another, if there is another.
fn lesser(prio: Prio, other: Option<Prio>) -> Prio
    ensures { result ≡ lesser prio other }
{
    match other {
        None => prio,
        Some(other) => {
            if prio.level() <= other.level() {
                prio
            } else {
                other
            }
        }
    }
}

/// The thread of the earliest waiter of a cluster and a priority.
fn earliest_of(waiters: &[Waiter], cluster: u8, prio: Prio) -> Option<ThreadIx>
    ensures { result ≡ earliest (of_prio prio (of_cluster cluster waiters.now)) }
{
    for waiter in waiters {
        if waiter.cluster == cluster && waiter.prio == prio {
            return Some(waiter.thread);
        }
    }
    None
}
