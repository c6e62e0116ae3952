ghost use Rattle.std.specs.Prelude.{◌≡◌, ◌<◌, [], true, false, is_some, slice_get, IfOk, IfSome};
ghost use Rattle.std.specs.Borrow.{Lends, sem};
ghost use Rattle.rk_model.specs.declared.status.Status.TheVariants.{Successful};
ghost use Rattle.rk_model.specs.declared.limits.TheConstants.{MOST_CLUSTERS};
ghost use Rattle.rk_model.specs.Scheduling.Priorities.{ceiling_in};
ghost use Rattle.rk_model.specs.Lists.{has};
ghost use Rattle.rk_model.specs.Queues.{clusters, threads, waits_in, IsQueue};
ghost use Rattle.rk_model.specs.State.{no_semaphore};
ghost use Rattle.rk_model.specs.Directives.Semaphores.{is_binary, is_mrsp, judged, new_semaphore, flushed, after_deleting, with_prio_of};
ghost use Rattle.rk_model.specs.Directives.Waits.{bare, without_waiter};
ghost use Rattle.rk_places.specs.Stores.{none_live, IsOfGroup, IsStoreOf, stored_at, put_at};
ghost use Rattle.rk_sem.specs.SemaphoreCalls.{obtained, reply_to_obtain, released, reply_to_release, serves, woken_by_release, woken_by_flush, reply_to_remove, woken_by_remove, reply_to_set, with_set};

use crate::judge::judge;
use crate::slot::Slot;
use rk_model::limits::MOST_CLUSTERS;
use rk_model::{
    Caller, NoMemory, Order, Prio, Protocol, Reply, SemSpec, Status, ThreadIx, Wakes, Wish,
};
use rk_places::{PLACES, Places};
use std::alloc::Global;
use std::marker::Model;

/// The semaphores of a group: those whose index is its number and one more, or this and 4, 8 and so on
/// up to 60 more. Contracts see the number and a place for each index from 1 to 64, of which those
/// of other groups have no semaphore.
#[derive(Debug, Drop)]
pub struct SemStore {
    places: Places<Slot>,
}

impl Model for SemStore {
    ghost use Rattle.rk_model.specs.State.{SemaphoreState, no_semaphore};
    ghost use Rattle.rk_places.specs.Stores.{Store, IsFull, store_of};

    ghost Value = { Store SemaphoreState };

    ghost view = { λ s. store_of no_semaphore s.places };

    ghost invariant = { λ s. IsFull s.places };
}

impl SemStore {
    ghost use Rattle.rk_sem.specs.contracts.slot.Slot.{the_row as slot_row};
    ghost use Rattle.rk_sem.specs.contracts.store.SemStore.{the_row};

    /// The places of a group, in which no semaphore lives, each with room for 64 waiters. Nothing else
    /// takes memory.
    ///
    /// # Errors
    ///
    /// `NoMemory` where there is no memory for them.
    pub fn new(alloc: Global, group: u8) -> Result<SemStore, NoMemory>
        requires { group < 4 }
        ensures { IfOk result (λ s. s ≡ none_live no_semaphore group) }
    {
        let mut places = Places::new(alloc, group)?;
        for _made in 0..PLACES {
            let slot = Slot::new(alloc)?;
            places.push(slot);
        }
        Ok(SemStore { places })
    }

    /// Whether a semaphore of this index lives. None waits where none lives.
    pub fn is_live(&self, index: u16) -> bool
        requires { IsOfGroup self.now.group index }
        ensures value { result ≡ (stored_at no_semaphore self.now index).live }
        ensures vacant { result ≡ false → stored_at no_semaphore self.now index ≡ no_semaphore }
    {
        self.slot(index).is_live()
    }

    /// The thread that owns a semaphore; `None` where none does. Its contract also tells that only a
    /// binary one has an owner, who has obtained it at least once and doesn't wait for it.
    pub fn owner(&self, index: u16) -> Option<ThreadIx>
        requires { IsOfGroup self.now.group index }
        ensures value { result ≡ (stored_at no_semaphore self.now index).owner }
        ensures binary { is_some result ≡ true → is_binary (stored_at no_semaphore self.now index).kind ≡ true }
        ensures nests { is_some result ≡ true → 0 < (stored_at no_semaphore self.now index).nesting }
        ensures apart { IfSome result (λ t. waits_in (stored_at no_semaphore self.now index).queue t ≡ false) }
    {
        self.slot(index).owner()
    }

    /// Whether those that wait for a semaphore spin: it is a MrsP one.
    pub fn spins(&self, index: u16) -> bool
        requires { IsOfGroup self.now.group index }
        ensures { result ≡ is_mrsp (stored_at no_semaphore self.now index).protocol }
    {
        self.slot(index).spins()
    }

    /// Whether a thread of a cluster waits for a semaphore.
    pub fn waits_from(&self, index: u16, cluster: u8) -> bool
        requires { IsOfGroup self.now.group index }
        ensures { result ≡ has (clusters (stored_at no_semaphore self.now index).queue.arrivals) cluster }
    {
        self.slot(index).waits_from(cluster)
    }

    /// Whether a thread waits for a semaphore. Its contract also tells what each queue is.
    pub fn waits_at(&self, index: u16, thread: ThreadIx) -> bool
        requires { IsOfGroup self.now.group index }
        ensures value { result ≡ waits_in (stored_at no_semaphore self.now index).queue thread }
        ensures queue { IsQueue (stored_at no_semaphore self.now index).queue.arrivals (stored_at no_semaphore self.now index).queue.turns }
    {
        self.slot(index).waits_at(thread)
    }

    /// What `rtems_semaphore_create` answers beside the name and the number of semaphores. The first of
    /// these conditions that holds decides.
    ///
    /// - `NotDefined`: the protocol isn't `NoProtocol`, and the kind isn't `Binary`.
    /// - `InvalidNumber`: the kind isn't `Counting`, and the count is above 1.
    /// - `InvalidNumber`: the protocol is `Mrsp`, and the count is 0.
    /// - `InvalidPriority`: the protocol is `Ceiling` or `Mrsp`, and the ceiling is 0 or above 255.
    /// - `InvalidPriority`: the protocol is `Ceiling`, the count is 0, and the caller's priority is less
    ///   than the ceiling.
    ///
    /// Otherwise it is `Successful`.
    pub fn judge(spec: SemSpec, by: Caller) -> Status
        ensures { result ≡ judged spec by }
    {
        judge(spec, by)
    }

    /// Makes a semaphore for which none waits (`rtems_semaphore_create`). A binary one with count 0 is
    /// owned by the caller, with nesting 1. It takes no memory.
    pub fn create(&mut self, index: u16, spec: SemSpec, by: Caller)
        requires place { IsOfGroup self.old.group index }
        requires vacant { (stored_at no_semaphore self.old index).live ≡ false }
        requires judged { judged spec by ≡ Successful }
        requires kept { is_mrsp spec.protocol ≡ false }
        ensures { self.new ≡ put_at self.old index (new_semaphore spec by) }
    {
        self.slot_mut(index).create(spec, by);
    }

    /// Obtains a semaphore (`rtems_semaphore_obtain`), where `closes` says whether the chain of its
    /// owner reaches the caller. The first of these cases that holds decides.
    ///
    /// - `NotDefined`: it is a ceiling semaphore of another cluster than the caller's home.
    /// - The caller owns it: its nesting rises by one, and the status is `Successful`. A nesting of
    ///   18,446,744,073,709,551,615 can't rise, and the status is `Unsatisfied`.
    /// - `InvalidPriority`: it has a ceiling in the caller's home, and the caller's priority is less.
    /// - It is free, so it is a binary one without owner, or another whose count is above 0: the caller
    ///   owns a binary one then, with nesting 1, and the count of another falls by one. The status is
    ///   `Successful`.
    /// - `Unsatisfied`: the caller doesn't wish to wait.
    /// - `IncorrectState`: it has an owner, and `closes` holds.
    /// - Otherwise the caller waits.
    pub fn obtain(&mut self, index: u16, by: Caller, wish: Wish, closes: bool) -> Reply
        requires place { IsOfGroup self.old.group index }
        requires live { (stored_at no_semaphore self.old index).live ≡ true }
        requires absent { waits_in (stored_at no_semaphore self.old index).queue by.thread ≡ false }
        ensures semaphore { self.new ≡ put_at self.old index (obtained by wish closes (stored_at no_semaphore self.old index)) }
        ensures reply { result ≡ reply_to_obtain by wish closes (stored_at no_semaphore self.old index) }
    {
        self.slot_mut(index).obtain(by, wish, closes)
    }

    /// The protocol of a semaphore.
    pub fn protocol(&self, index: u16) -> Protocol
        requires { IsOfGroup self.now.group index }
        ensures { result ≡ (stored_at no_semaphore self.now index).protocol }
    {
        self.slot(index).protocol()
    }

    /// The ceilings of a semaphore in the clusters 0 to 3; 0 where it has none.
    pub fn ceilings(&self, index: u16) -> [u8; MOST_CLUSTERS]
        requires { IsOfGroup self.now.group index }
        ensures { result ≡ (stored_at no_semaphore self.now index).ceilings }
    {
        self.slot(index).ceilings()
    }

    /// The ceiling of a semaphore in a cluster; `None` exactly where it has none there. A ceiling
    /// semaphore has one in the cluster to which it belongs alone.
    pub fn ceiling(&self, index: u16, cluster: u8) -> Option<Prio>
        requires { IsOfGroup self.now.group index }
        ensures { result ≡ ceiling_in cluster (stored_at no_semaphore self.now index) }
    {
        self.slot(index).ceiling(cluster)
    }

    /// Sets the ceiling of a semaphore in a cluster (`rtems_semaphore_set_priority`). The first of these
    /// cases that holds decides.
    ///
    /// - `InvalidPriority`: the priority is above 255.
    /// - `NotDefined`: it has no ceiling in the cluster.
    /// - The priority is 0: nothing changes.
    /// - Otherwise its ceiling in the cluster is set.
    ///
    /// Where it isn't refused, the ceiling there before is answered.
    pub fn set_ceiling(&mut self, index: u16, cluster: u8, prio: u32) -> Reply
        requires place { IsOfGroup self.old.group index }
        requires live { (stored_at no_semaphore self.old index).live ≡ true }
        requires cluster { cluster < MOST_CLUSTERS }
        ensures semaphore { self.new ≡ put_at self.old index (with_set cluster prio (stored_at no_semaphore self.old index)) }
        ensures reply { result ≡ reply_to_set cluster prio (stored_at no_semaphore self.old index) }
    {
        self.slot_mut(index).set_ceiling(cluster, prio)
    }

    /// The order in which the queue of a semaphore serves.
    pub fn order(&self, index: u16) -> Order
        requires { IsOfGroup self.now.group index }
        ensures { result ≡ (stored_at no_semaphore self.now index).queue.order }
    {
        self.slot(index).order()
    }

    /// The thread that waits for a semaphore with so many earlier arrivals, if there is one.
    pub fn waiter(&self, index: u16, at: usize) -> Option<ThreadIx>
        requires { IsOfGroup self.now.group index }
        ensures { result ≡ slice_get (threads (stored_at no_semaphore self.now index).queue.arrivals) at }
    {
        self.slot(index).waiter(at)
    }

    /// Whether a release of a semaphore by a thread would serve a waiter.
    pub fn serves(&self, index: u16, by: ThreadIx) -> bool
        requires place { IsOfGroup self.now.group index }
        requires live { (stored_at no_semaphore self.now index).live ≡ true }
        ensures { result ≡ serves by (stored_at no_semaphore self.now index) }
    {
        self.slot(index).serves(by)
    }

    /// Releases a semaphore (`rtems_semaphore_release`). The first of these cases that holds decides.
    ///
    /// - `NotOwnerOfResource`: it is a binary one, and the caller doesn't own it.
    /// - It is a binary one, and its nesting is above 1: the nesting falls by one.
    /// - A thread waits: the one that the queue serves next leaves it, and its wait ends with
    ///   `Successful`. It owns a binary one then, with nesting 1.
    /// - `Unsatisfied`: it counts, and its count is 4,294,967,295.
    /// - Otherwise the count of a counting one rises by one, that of a simple one becomes 1, and a binary
    ///   one has no owner.
    ///
    /// The status is `Successful` where none is named.
    pub fn release(&mut self, index: u16, by: ThreadIx, wakes: &mut Wakes) -> Reply
        requires place { IsOfGroup self.old.group index }
        requires live { (stored_at no_semaphore self.old index).live ≡ true }
        requires none { wakes.old ≡ [] }
        ensures semaphore { self.new ≡ put_at self.old index (released by (stored_at no_semaphore self.old index)) }
        ensures woken { wakes.new ≡ woken_by_release by (stored_at no_semaphore self.old index) }
        ensures reply { result ≡ reply_to_release by (stored_at no_semaphore self.old index) }
    {
        self.slot_mut(index).release(by, wakes)
    }

    /// Flushes a semaphore (`rtems_semaphore_flush`): all its waits end with `Unsatisfied`, in order of
    /// arrival. The status is `Successful`.
    pub fn flush(&mut self, index: u16, wakes: &mut Wakes) -> Reply
        requires place { IsOfGroup self.old.group index }
        requires live { (stored_at no_semaphore self.old index).live ≡ true }
        requires none { wakes.old ≡ [] }
        ensures semaphore { self.new ≡ put_at self.old index (flushed (stored_at no_semaphore self.old index)) }
        ensures woken { wakes.new ≡ woken_by_flush (stored_at no_semaphore self.old index) }
        ensures reply { result ≡ bare Successful }
    {
        self.slot_mut(index).flush(wakes)
    }

    /// Ends the life of a semaphore (`rtems_semaphore_delete`). The status is `ResourceInUse` where it
    /// has an owner. Otherwise all its waits end with `ObjectWasDeleted`, in order of arrival, and the
    /// status is `Successful`.
    pub fn remove(&mut self, index: u16, wakes: &mut Wakes) -> Reply
        requires place { IsOfGroup self.old.group index }
        requires live { (stored_at no_semaphore self.old index).live ≡ true }
        requires none { wakes.old ≡ [] }
        ensures semaphore { self.new ≡ put_at self.old index (after_deleting (stored_at no_semaphore self.old index)) }
        ensures woken { wakes.new ≡ woken_by_remove (stored_at no_semaphore self.old index) }
        ensures reply { result ≡ reply_to_remove (stored_at no_semaphore self.old index) }
    {
        self.slot_mut(index).remove(wakes)
    }

    /// Takes a thread out that waits for a semaphore, and whose wait ends otherwise.
    pub fn extract(&mut self, index: u16, thread: ThreadIx)
        requires place { IsOfGroup self.old.group index }
        requires live { (stored_at no_semaphore self.old index).live ≡ true }
        requires waits { waits_in (stored_at no_semaphore self.old index).queue thread ≡ true }
        ensures { self.new ≡ put_at self.old index (without_waiter thread (stored_at no_semaphore self.old index)) }
    {
        self.slot_mut(index).extract(thread);
    }

    /// Gives a thread that waits for a semaphore another priority in its queue, at its place.
    pub fn reorder(&mut self, index: u16, thread: ThreadIx, prio: Prio)
        requires place { IsOfGroup self.old.group index }
        requires live { (stored_at no_semaphore self.old index).live ≡ true }
        requires waits { waits_in (stored_at no_semaphore self.old index).queue thread ≡ true }
        ensures { self.new ≡ put_at self.old index (with_prio_of thread prio (stored_at no_semaphore self.old index)) }
    {
        self.slot_mut(index).reorder(thread, prio);
    }

    /// The place of an index.
    fn slot(&self, index: u16) -> &Slot
        requires { IsOfGroup self.now.group index }
        ensures { result.now ≡ stored_at no_semaphore self.now index }
    {
        self.places.at(index)
    }

    /// The place of an index, to be changed.
    fn slot_mut(&mut self, index: u16) -> &mut Slot
        requires { IsOfGroup self.old.group index }
        ensures* writes_back { sem 𝓛 (Lends the_row slot_row self.entry result (put_at self.entry.now index)) }
        ensures value { result.now ≡ stored_at no_semaphore self.old index }
    {
        self.places.at_mut(index)
    }

    /// The number of the group, from 0 to 3. Its contract also tells that there are places for 64
    /// semaphores, and that at each index of another group none lives.
    pub fn group(&self) -> u8
        ensures value { result ≡ self.now.group }
        ensures store { IsStoreOf no_semaphore self.now }
    {
        self.places.group()
    }
}
