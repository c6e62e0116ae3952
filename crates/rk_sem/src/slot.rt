ghost use Rattle.std.specs.Prelude.{◌≡◌, ◌≢◌, ◌<◌, ◌≤◌, [], ◌∷◌, true, false, is_some, slice_get, IfOk, IfSome};
ghost use Rattle.rk_model.specs.declared.limits.TheConstants.{LEAST_URGENT, MOST_CLUSTERS, MOST_NESTING};
ghost use Rattle.rk_model.specs.declared.status.Status.TheVariants.{Successful};
ghost use Rattle.rk_model.specs.Lists.{has};
ghost use Rattle.rk_model.specs.Queues.{clusters, threads, waits_in, first_of, ended, IsQueue};
ghost use Rattle.rk_model.specs.State.{no_semaphore};
ghost use Rattle.std.specs.List.{slice_index_or, slice_set};
ghost use Rattle.rk_model.specs.Scheduling.Priorities.{ceiling_in, if_some};
ghost use Rattle.rk_model.specs.Directives.Semaphores.{has_ceiling, is_less, is_mrsp, judged, new_ceilings, with_ceiling, is_binary, is_free, is_full, owns, nested, taken, unnested, given_to, handed, freed, flushed, new_semaphore, after_deleting, with_prio_of};
ghost use Rattle.rk_model.specs.Directives.Waits.{bare, with_waiter, without_waiter};
ghost use Rattle.rk_sem.specs.SemaphoreCalls.{obtained, reply_to_obtain, released, reply_to_release, serves, woken_by_release, woken_by_flush, reply_to_remove, woken_by_remove, reply_to_set, with_set};

use rk_model::limits::{LEAST_URGENT, MOST_CLUSTERS, MOST_COUNT, MOST_NESTING};
use rk_model::{
    Caller, NoMemory, Order, Prio, Protocol, Reply, SemKind, SemSpec, Status, ThreadIx, Waiter,
    Wake, Wakes, Wish,
};
use rk_queue::ThreadQueue;
use std::alloc::Global;
use std::marker::Model;

/// A semaphore that lives.
#[derive(Clone, Copy, Debug, PartialEq, Eq)]
pub(crate) struct Semaphore {
    /// Its kind.
    pub(crate) kind: SemKind,
    /// Its protocol.
    pub(crate) protocol: Protocol,
    /// Its ceilings in the clusters 0 to 3; 0 where it has none.
    pub(crate) ceilings: [u8; MOST_CLUSTERS],
    /// Its count; 0 where it is a binary one.
    pub(crate) count: u32,
    /// The thread that owns it, if one does.
    pub(crate) owner: Option<ThreadIx>,
    /// How many times its owner has obtained it and not released it; 0 where none owns it.
    pub(crate) nesting: u64,
}

/// A place for a semaphore, with room for the threads that wait for it.
#[derive(Debug, Drop)]
pub(crate) struct Slot {
    semaphore: Option<Semaphore>,
    queue: ThreadQueue,
}

impl Model for Slot {
    ghost use Rattle.rk_model.specs.State.{SemaphoreState};
    ghost use Rattle.rk_sem.specs.SemaphoreSlots.{IsStored, stored_by};

    ghost Value = { SemaphoreState };

    ghost view = { λ s. stored_by s.semaphore s.queue };

    ghost invariant = { λ s. IsStored (stored_by s.semaphore s.queue) };
}

impl Slot {
    /// A place in which no semaphore lives.
    ///
    /// # Errors
    ///
    /// `NoMemory` where there is no memory for 64 waiters.
    pub(crate) fn new(alloc: Global) -> Result<Slot, NoMemory>
        ensures { IfOk result (λ s. s ≡ no_semaphore) }
    {
        let queue = ThreadQueue::new(alloc, Order::Fifo)?;
        Ok(Slot {
            semaphore: None,
            queue,
        })
    }

    /// Whether a semaphore lives there. None waits where none lives.
    pub(crate) fn is_live(&self) -> bool
        ensures value { result ≡ self.now.live }
        ensures vacant { result ≡ false → self.now ≡ no_semaphore }
    {
        self.semaphore.is_some()
    }

    /// The thread that owns it, if one does.
    pub(crate) fn owner(&self) -> Option<ThreadIx>
        ensures value { result ≡ self.now.owner }
        ensures binary { is_some result ≡ true → is_binary self.now.kind ≡ true }
        ensures nests { is_some result ≡ true → 0 < self.now.nesting }
        ensures apart { IfSome result (λ t. waits_in self.now.queue t ≡ false) }
    {
        match self.semaphore {
            None => None,
            Some(semaphore) => semaphore.owner,
        }
    }

    /// Whether those that wait for it spin: it is a MrsP one.
    pub(crate) fn spins(&self) -> bool
        ensures { result ≡ is_mrsp self.now.protocol }
    {
        match self.semaphore {
            None => false,
            Some(semaphore) => semaphore.protocol.is_mrsp(),
        }
    }

    /// Whether a waiter of a cluster is there.
    pub(crate) fn waits_from(&self, cluster: u8) -> bool
        ensures { result ≡ has (clusters self.now.queue.arrivals) cluster }
    {
        self.queue.waits_from(cluster)
    }

    /// Whether a thread waits there.
    pub(crate) fn waits_at(&self, thread: ThreadIx) -> bool
        ensures value { result ≡ waits_in self.now.queue thread }
        ensures queue { IsQueue self.now.queue.arrivals self.now.queue.turns }
    {
        let _waiters = self.queue.waiters();
        self.queue.contains(thread)
    }

    /// Makes a semaphore there.
    pub(crate) fn create(&mut self, spec: SemSpec, by: Caller)
        requires vacant { self.old.live ≡ false }
        requires judged { judged spec by ≡ Successful }
        ensures { self.new ≡ new_semaphore spec by }
    {
        let is_owned = spec.kind.is_binary() && spec.count == 0;
        self.semaphore = Some(Semaphore {
            kind: spec.kind,
            protocol: spec.protocol,
            ceilings: ceilings_of(spec.protocol, spec.ceiling, by.home),
            count: if spec.kind.is_binary() { 0 } else { spec.count },
            owner: if is_owned { Some(by.thread) } else { None },
            nesting: if is_owned { 1 } else { 0 },
        });
        self.queue.reset(spec.order);
    }

    /// Whether it has a ceiling.
    fn has_ceiling(&self) -> bool
        ensures { result ≡ has_ceiling self.now.protocol }
    {
        self.protocol().has_ceiling()
    }

    /// Whether it is a MrsP one.
    fn is_mrsp(&self) -> bool
        ensures { result ≡ is_mrsp self.now.protocol }
    {
        self.protocol().is_mrsp()
    }

    /// Its protocol.
    pub(crate) fn protocol(&self) -> Protocol
        ensures { result ≡ self.now.protocol }
    {
        match self.semaphore {
            None => Protocol::NoProtocol,
            Some(semaphore) => semaphore.protocol,
        }
    }

    /// Its ceilings in the clusters 0 to 3; 0 where it has none.
    pub(crate) fn ceilings(&self) -> [u8; MOST_CLUSTERS]
        ensures { result ≡ self.now.ceilings }
    {
        match self.semaphore {
            None => [0; MOST_CLUSTERS],
            Some(semaphore) => semaphore.ceilings,
        }
    }

    /// Its ceiling in a cluster, if it has one there.
    pub(crate) fn ceiling(&self, cluster: u8) -> Option<Prio>
        ensures { result ≡ ceiling_in cluster self.now }
    {
        prio_of(level_in(self.ceilings(), cluster))
    }

    /// Sets its ceiling in a cluster, where it has one there.
    pub(crate) fn set_ceiling(&mut self, cluster: u8, prio: u32) -> Reply
        requires live { self.old.live ≡ true }
        requires cluster { cluster < MOST_CLUSTERS }
        ensures semaphore { self.new ≡ with_set cluster prio self.old }
        ensures reply { result ≡ reply_to_set cluster prio self.old }
    {
        if prio > LEAST_URGENT as u32 {
            return reply(Status::InvalidPriority);
        }
        if self.ceiling(cluster).is_none() {
            return reply(Status::NotDefined);
        }
        let before = level_in(self.ceilings(), cluster) as u32;
        if prio != 0 {
            self.raise(cluster, prio as u8);
        }
        Reply {
            status: Status::Successful,
            out: before,
        }
    }

    /// Gives it another ceiling in a cluster.
    fn raise(&mut self, cluster: u8, level: u8)
        requires { self.old.live ≡ true }
        ensures { self.new ≡ with_ceiling cluster level self.old }
    {
        let semaphore = self.semaphore.as_mut().unwrap();
        semaphore.ceilings = with_level(semaphore.ceilings, cluster, level);
    }

    /// Whether a thread owns it.
    fn is_owned_by(&self, thread: ThreadIx) -> bool
        ensures { result ≡ owns thread self.now }
    {
        match self.owner() {
            None => false,
            Some(owner) => owner == thread,
        }
    }

    /// Whether it can be taken.
    fn is_free(&self) -> bool
        ensures { result ≡ is_free self.now }
    {
        match self.semaphore {
            None => false,
            Some(semaphore) => {
                if semaphore.kind.is_binary() {
                    semaphore.owner.is_none()
                } else {
                    semaphore.count > 0
                }
            }
        }
    }

    /// The nesting.
    fn nesting(&self) -> u64
        ensures { result ≡ self.now.nesting }
    {
        match self.semaphore {
            None => 0,
            Some(semaphore) => semaphore.nesting,
        }
    }

    /// Obtains it for a task, or lets it wait, unless it doesn't wish to, or `closes` holds, which
    /// says whether the chain of the owner reaches the task.
    pub(crate) fn obtain(&mut self, by: Caller, wish: Wish, closes: bool) -> Reply
        requires live { self.old.live ≡ true }
        requires absent { waits_in self.old.queue by.thread ≡ false }
        ensures semaphore { self.new ≡ obtained by wish closes self.old }
        ensures reply { result ≡ reply_to_obtain by wish closes self.old }
    {
        if self.has_ceiling() && self.ceiling(by.home).is_none() {
            return reply(Status::NotDefined);
        }
        if self.is_owned_by(by.thread) {
            if self.is_mrsp() || self.nesting() == MOST_NESTING {
                return reply(Status::Unsatisfied);
            }
            self.nest();
            return reply(Status::Successful);
        }
        if is_less(by.prio, self.ceiling(by.home)) {
            return reply(Status::InvalidPriority);
        }
        if self.is_free() {
            self.take(by.thread);
            return reply(Status::Successful);
        }
        match wish {
            Wish::NoWait => reply(Status::Unsatisfied),
            Wish::Limit(_) => {
                if self.owner().is_some() && closes {
                    return reply(Status::IncorrectState);
                }
                self.enter(by);
                reply(Status::Waits)
            }
        }
    }

    /// Obtains it once more for its owner.
    fn nest(&mut self)
        requires live { self.old.live ≡ true }
        requires room { self.old.nesting ≢ MOST_NESTING }
        ensures { self.new ≡ nested self.old }
    {
        let semaphore = self.semaphore.as_mut().unwrap();
        semaphore.nesting += 1;
    }

    /// Takes it for a thread.
    fn take(&mut self, thread: ThreadIx)
        requires live { self.old.live ≡ true }
        requires free { is_free self.old ≡ true }
        requires absent { waits_in self.old.queue thread ≡ false }
        ensures { self.new ≡ taken thread self.old }
    {
        let semaphore = self.semaphore.as_mut().unwrap();
        if semaphore.kind.is_binary() {
            semaphore.owner = Some(thread);
            semaphore.nesting = 1;
        } else {
            semaphore.count -= 1;
        }
    }

    /// Lets a task wait.
    fn enter(&mut self, by: Caller)
        requires live { self.old.live ≡ true }
        requires absent { waits_in self.old.queue by.thread ≡ false }
        requires other { owns by.thread self.old ≡ false }
        ensures { self.new ≡ with_waiter by self.old }
    {
        self.queue.enqueue(Waiter {
            thread: by.thread,
            cluster: by.home,
            prio: by.prio,
        });
    }

    /// The order in which its queue serves.
    pub(crate) fn order(&self) -> Order
        ensures { result ≡ self.now.queue.order }
    {
        self.queue.order()
    }

    /// The thread that waits there with so many earlier arrivals, if there is one.
    pub(crate) fn waiter(&self, at: usize) -> Option<ThreadIx>
        ensures { result ≡ slice_get (threads self.now.queue.arrivals) at }
    {
        match self.queue.waiters().get(at) {
            None => None,
            Some(waiter) => Some(waiter.thread),
        }
    }

    /// Whether a release by a thread would serve a waiter.
    pub(crate) fn serves(&self, by: ThreadIx) -> bool
        requires { self.now.live ≡ true }
        ensures { result ≡ serves by self.now }
    {
        if self.is_binary() && (!self.is_owned_by(by) || self.nesting() > 1) {
            return false;
        }
        self.queue.first().is_some()
    }

    /// Releases it once, and hands it to the waiter to be served, if there is one.
    pub(crate) fn release(&mut self, by: ThreadIx, wakes: &mut Wakes) -> Reply
        requires live { self.old.live ≡ true }
        requires none { wakes.old ≡ [] }
        ensures semaphore { self.new ≡ released by self.old }
        ensures woken { wakes.new ≡ woken_by_release by self.old }
        ensures reply { result ≡ reply_to_release by self.old }
    {
        if self.is_binary() {
            if !self.is_owned_by(by) {
                return reply(Status::NotOwnerOfResource);
            }
            if self.nesting() > 1 {
                self.unnest();
                return reply(Status::Successful);
            }
        }
        match self.serve() {
            Some(thread) => {
                wakes.push(Wake {
                    thread,
                    status: Status::Successful,
                    out: 0,
                });
                reply(Status::Successful)
            }
            None => {
                if self.is_full() {
                    return reply(Status::Unsatisfied);
                }
                self.free();
                reply(Status::Successful)
            }
        }
    }

    /// Whether it is a binary one.
    fn is_binary(&self) -> bool
        requires { self.now.live ≡ true }
        ensures { result ≡ is_binary self.now.kind }
    {
        self.semaphore.as_ref().unwrap().kind.is_binary()
    }

    /// Whether it counts, and its count is as great as it can be.
    fn is_full(&self) -> bool
        requires { self.now.live ≡ true }
        ensures { result ≡ is_full self.now }
    {
        let semaphore = self.semaphore.as_ref().unwrap();
        semaphore.kind.is_counting() && semaphore.count == MOST_COUNT
    }

    /// Releases it once for its owner, who has obtained it several times.
    fn unnest(&mut self)
        requires live { self.old.live ≡ true }
        requires nested { 1 < self.old.nesting }
        ensures { self.new ≡ unnested self.old }
    {
        let semaphore = self.semaphore.as_mut().unwrap();
        semaphore.nesting -= 1;
    }

    /// Hands it to the waiter to be served, if there is one, and gives its thread.
    fn serve(&mut self) -> Option<ThreadIx>
        requires { self.old.live ≡ true }
        ensures value { result ≡ first_of self.old.queue }
        ensures semaphore { self.new ≡ handed (first_of self.old.queue) self.old }
    {
        let thread = self.queue.take_first()?;
        self.give_to(thread);
        Some(thread)
    }

    /// Makes a thread that doesn't wait the owner of a binary one.
    fn give_to(&mut self, thread: ThreadIx)
        requires live { self.old.live ≡ true }
        requires absent { waits_in self.old.queue thread ≡ false }
        ensures { self.new ≡ given_to thread self.old }
    {
        let semaphore = self.semaphore.as_mut().unwrap();
        if semaphore.kind.is_binary() {
            semaphore.owner = Some(thread);
            semaphore.nesting = 1;
        }
    }

    /// Frees it, or raises its count, where none waits.
    fn free(&mut self)
        requires live { self.old.live ≡ true }
        requires room { is_full self.old ≡ false }
        ensures { self.new ≡ freed self.old }
    {
        let semaphore = self.semaphore.as_mut().unwrap();
        match semaphore.kind {
            SemKind::Counting => semaphore.count += 1,
            SemKind::Simple => semaphore.count = 1,
            SemKind::Binary => {
                semaphore.owner = None;
                semaphore.nesting = 0;
            }
        }
    }

    /// Ends all waits.
    pub(crate) fn flush(&mut self, wakes: &mut Wakes) -> Reply
        requires live { self.old.live ≡ true }
        requires none { wakes.old ≡ [] }
        ensures semaphore { self.new ≡ flushed self.old }
        ensures woken { wakes.new ≡ woken_by_flush self.old }
        ensures reply { result ≡ bare Successful }
    {
        self.end_waits(Status::Unsatisfied, wakes);
        reply(Status::Successful)
    }

    /// Ends the life of the semaphore, unless it has an owner.
    pub(crate) fn remove(&mut self, wakes: &mut Wakes) -> Reply
        requires live { self.old.live ≡ true }
        requires none { wakes.old ≡ [] }
        ensures semaphore { self.new ≡ after_deleting self.old }
        ensures woken { wakes.new ≡ woken_by_remove self.old }
        ensures reply { result ≡ reply_to_remove self.old }
    {
        if self.owner().is_some() {
            return reply(Status::ResourceInUse);
        }
        self.end_waits(Status::ObjectWasDeleted, wakes);
        self.vacate();
        reply(Status::Successful)
    }

    /// Ends all waits with a status.
    fn end_waits(&mut self, status: Status, wakes: &mut Wakes)
        requires live { self.old.live ≡ true }
        requires none { wakes.old ≡ [] }
        ensures semaphore { self.new ≡ flushed self.old }
        ensures woken { wakes.new ≡ ended status self.old.queue.arrivals }
    {
        self.queue.wake_all(status, wakes);
        self.queue.clear();
    }

    /// Makes the place vacant.
    fn vacate(&mut self)
        ensures { self.new ≡ no_semaphore }
    {
        self.semaphore = None;
        self.queue.reset(Order::Fifo);
    }

    /// Takes a thread out that waits there.
    pub(crate) fn extract(&mut self, thread: ThreadIx)
        requires live { self.old.live ≡ true }
        requires waits { waits_in self.old.queue thread ≡ true }
        ensures { self.new ≡ without_waiter thread self.old }
    {
        self.queue.extract(thread);
    }

    /// Gives a thread that waits there another priority.
    pub(crate) fn reorder(&mut self, thread: ThreadIx, prio: Prio)
        requires live { self.old.live ≡ true }
        requires waits { waits_in self.old.queue thread ≡ true }
        ensures { self.new ≡ with_prio_of thread prio self.old }
    {
        self.queue.reorder(thread, prio);
    }
}

/// These ceilings with another in a cluster.
fn with_level(ceilings: [u8; MOST_CLUSTERS], cluster: u8, level: u8) -> [u8; MOST_CLUSTERS]
    ensures { result ≡ slice_set ceilings cluster level }
{
    let mut ceilings = ceilings;
    if (cluster as usize) < ceilings.len() {
        ceilings[cluster as usize] = level;
    }
    ceilings
}

/// The ceiling of a cluster among these; 0 where there is none.
fn level_in(ceilings: [u8; MOST_CLUSTERS], cluster: u8) -> u8
    ensures { result ≡ slice_index_or ceilings cluster 0 }
{
    match ceilings.get(cluster as usize) {
        Some(level) => *level,
        None => 0,
    }
}

/// The priority of a level, if it is one.
fn prio_of(level: u8) -> Option<Prio>
    ensures { result ≡ if_some level }
{
    if level == 0 {
        None
    } else {
        Some(Prio::new(level))
    }
}

/// Whether a priority is less than this ceiling, if it is one.
fn is_less(prio: Prio, ceiling: Option<Prio>) -> bool
    ensures { result ≡ is_less prio ceiling }
{
    match ceiling {
        None => false,
        Some(ceiling) => prio.level() < ceiling.level(),
    }
}

/// The ceilings of a semaphore that a task of this home makes with a protocol and a ceiling.
fn ceilings_of(protocol: Protocol, ceiling: u32, home: u8) -> [u8; MOST_CLUSTERS]
    requires { has_ceiling protocol ≡ true → ceiling ≤ LEAST_URGENT }
    ensures { result ≡ new_ceilings protocol ceiling home }
{
    match protocol {
        Protocol::NoProtocol => [0; MOST_CLUSTERS],
        Protocol::Inherit => [0; MOST_CLUSTERS],
        Protocol::Ceiling => with_level([0; MOST_CLUSTERS], home, ceiling as u8),
        Protocol::Mrsp => [ceiling as u8; MOST_CLUSTERS],
    }
}

/// The answer with a status and without an out number.
fn reply(status: Status) -> Reply
    ensures { result ≡ bare status }
{
    Reply { status, out: 0 }
}
