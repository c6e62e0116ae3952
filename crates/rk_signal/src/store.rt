ghost use Rattle.std.specs.Prelude.{◌≡◌, ◌≢◌, ◌<◌, [], true, false, length, IfOk};
ghost use Rattle.std.specs.Borrow.{Lends, sem};
ghost use Rattle.rk_model.specs.declared.status.Status.TheVariants.{Successful, ObjectWasDeleted};
ghost use Rattle.rk_model.specs.Lists.{has};
ghost use Rattle.rk_model.specs.Queues.{clusters, waits_in, ended, IsQueue};
ghost use Rattle.rk_places.specs.Stores.{none_live, IsOfGroup, IsStoreOf, stored_at, put_at};
ghost use Rattle.rk_signal.specs.Barriers.{no_stored, barrier, without_waiter, emptied, is_filled, successful, waited, woken_by_wait, reply_to_wait};

use crate::slot::Slot;
use rk_model::{Caller, NoMemory, Reply, ThreadIx, Wakes};
use rk_places::{PLACES, Places};
use std::alloc::Global;
use std::marker::Model;

/// The barriers of a group: those whose index is its number and one more, or this and 4, 8 and so on
/// up to 60 more. Contracts see the number and a place for each index from 1 to 64, of which those
/// of other groups have no barrier.
#[derive(Debug, Drop)]
pub struct BarrierStore {
    places: Places<Slot>,
}

impl Model for BarrierStore {
    ghost use Rattle.rk_places.specs.Stores.{Store, IsFull, store_of};
    ghost use Rattle.rk_signal.specs.Barriers.{Stored, no_stored};

    ghost Value = { Store Stored };

    ghost view = { λ s. store_of no_stored s.places };

    ghost invariant = { λ s. IsFull s.places };
}

impl BarrierStore {
    ghost use Rattle.rk_signal.specs.contracts.slot.Slot.{the_row as slot_row};
    ghost use Rattle.rk_signal.specs.contracts.store.BarrierStore.{the_row};

    /// The places of a group, in which no barrier lives, each with room for 64 waiters.
    ///
    /// # Errors
    ///
    /// `NoMemory` where there is no memory for them.
    pub fn new(alloc: Global, group: u8) -> Result<BarrierStore, NoMemory>
        requires { group < 4 }
        ensures { IfOk result (λ s. s ≡ none_live no_stored group) }
    {
        let mut places = Places::new(alloc, group)?;
        for _made in 0..PLACES {
            let slot = Slot::new(alloc)?;
            places.push(slot);
        }
        Ok(BarrierStore { places })
    }

    /// Whether a barrier of this index lives. None waits where none lives.
    pub fn is_live(&self, index: u16) -> bool
        requires { IsOfGroup self.now.group index }
        ensures value { result ≡ (stored_at no_stored self.now index).live }
        ensures vacant { result ≡ false → stored_at no_stored self.now index ≡ no_stored }
    {
        self.slot(index).is_live()
    }

    /// Whether a waiter of a cluster is at a barrier.
    pub fn waits_from(&self, index: u16, cluster: u8) -> bool
        requires { IsOfGroup self.now.group index }
        ensures { result ≡ has (clusters (stored_at no_stored self.now index).queue.arrivals) cluster }
    {
        self.slot(index).waits_from(cluster)
    }

    /// Whether a thread waits at a barrier. Its contract also tells what each queue is.
    pub fn waits_at(&self, index: u16, thread: ThreadIx) -> bool
        requires { IsOfGroup self.now.group index }
        ensures value { result ≡ waits_in (stored_at no_stored self.now index).queue thread }
        ensures queue { IsQueue (stored_at no_stored self.now index).queue.arrivals (stored_at no_stored self.now index).queue.turns }
    {
        self.slot(index).waits_at(thread)
    }

    /// Whether one more waiter releases a barrier: it is automatic, and its waiters and one more are
    /// at least as many as it is released at.
    pub fn is_full(&self, index: u16) -> bool
        requires { IsOfGroup self.now.group index }
        ensures { result ≡ is_filled (stored_at no_stored self.now index) }
    {
        self.slot(index).is_full()
    }

    /// Makes a barrier (`rtems_barrier_create`). Where it is automatic, it is released at `most`
    /// waiters. It takes no memory.
    pub fn create(&mut self, index: u16, automatic: bool, most: u32)
        requires place { IsOfGroup self.old.group index }
        requires vacant { (stored_at no_stored self.old index).live ≡ false }
        requires some { automatic ≡ true → most ≢ 0 }
        ensures { self.new ≡ put_at self.old index (barrier automatic most) }
    {
        self.slot_mut(index).create(automatic, most);
    }

    /// Waits at a barrier (`rtems_barrier_wait`). Where it is automatic, and its waiters and the
    /// caller are as many as it is released at, all its waits end with `Successful`, in order of
    /// arrival, and the caller goes on with `Successful`. Else the caller waits.
    pub fn wait(&mut self, index: u16, by: Caller, wakes: &mut Wakes) -> Reply
        requires place { IsOfGroup self.old.group index }
        requires live { (stored_at no_stored self.old index).live ≡ true }
        requires absent { waits_in (stored_at no_stored self.old index).queue by.thread ≡ false }
        requires none { wakes.old ≡ [] }
        ensures barrier { self.new ≡ put_at self.old index (waited by (stored_at no_stored self.old index)) }
        ensures woken { wakes.new ≡ woken_by_wait (stored_at no_stored self.old index) }
        ensures reply { result ≡ reply_to_wait (stored_at no_stored self.old index) }
    {
        self.slot_mut(index).wait(by, wakes)
    }

    /// Releases a barrier (`rtems_barrier_release`): all its waits end with `Successful`, in order of
    /// arrival. The out number is how many these are.
    pub fn release(&mut self, index: u16, wakes: &mut Wakes) -> Reply
        requires place { IsOfGroup self.old.group index }
        requires live { (stored_at no_stored self.old index).live ≡ true }
        requires none { wakes.old ≡ [] }
        ensures barrier { self.new ≡ put_at self.old index (emptied (stored_at no_stored self.old index)) }
        ensures woken { wakes.new ≡ ended Successful (stored_at no_stored self.old index).queue.arrivals }
        ensures reply { result ≡ successful (length (stored_at no_stored self.old index).queue.arrivals) }
    {
        self.slot_mut(index).release(wakes)
    }

    /// Ends the life of a barrier (`rtems_barrier_delete`): all its waits end with
    /// `ObjectWasDeleted`, in order of arrival.
    pub fn remove(&mut self, index: u16, wakes: &mut Wakes) -> Reply
        requires place { IsOfGroup self.old.group index }
        requires live { (stored_at no_stored self.old index).live ≡ true }
        requires none { wakes.old ≡ [] }
        ensures barrier { self.new ≡ put_at self.old index no_stored }
        ensures woken { wakes.new ≡ ended ObjectWasDeleted (stored_at no_stored self.old index).queue.arrivals }
        ensures reply { result ≡ successful 0 }
    {
        self.slot_mut(index).remove(wakes)
    }

    /// Takes a thread out that waits at a barrier, whose wait ends otherwise.
    pub fn extract(&mut self, index: u16, thread: ThreadIx)
        requires place { IsOfGroup self.old.group index }
        requires live { (stored_at no_stored self.old index).live ≡ true }
        requires waits { waits_in (stored_at no_stored self.old index).queue thread ≡ true }
        ensures { self.new ≡ put_at self.old index (without_waiter thread (stored_at no_stored self.old index)) }
    {
        self.slot_mut(index).extract(thread);
    }

    /// The place of an index.
    fn slot(&self, index: u16) -> &Slot
        requires { IsOfGroup self.now.group index }
        ensures { result.now ≡ stored_at no_stored self.now index }
    {
        self.places.at(index)
    }

    /// The place of an index, to be changed.
    fn slot_mut(&mut self, index: u16) -> &mut Slot
        requires { IsOfGroup self.old.group index }
        ensures* writes_back { sem 𝓛 (Lends the_row slot_row self.entry result (put_at self.entry.now index)) }
        ensures value { result.now ≡ stored_at no_stored self.old index }
    {
        self.places.at_mut(index)
    }

    /// The number of the group, from 0 to 3. Its contract also tells that there are places for 64
    /// barriers, and that at each index of another group none lives.
    pub fn group(&self) -> u8
        ensures value { result ≡ self.now.group }
        ensures store { IsStoreOf no_stored self.now }
    {
        self.places.group()
    }
}
