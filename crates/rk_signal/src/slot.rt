ghost use Rattle.std.specs.Prelude.{◌≡◌, ◌+◌, [], ◌∷◌, true, false, length, IfOk};
ghost use Rattle.rk_model.specs.declared.status.Status.TheVariants.{Successful, ObjectWasDeleted};
ghost use Rattle.rk_model.specs.Lists.{has};
ghost use Rattle.rk_model.specs.Queues.{clusters, waits_in, ended, IsQueue};
ghost use Rattle.rk_signal.specs.Barriers.{Stored, no_stored, barrier, without_waiter, emptied, is_filled, successful, waited, woken_by_wait, reply_to_wait};

use rk_model::{Caller, NoMemory, Order, Reply, Status, ThreadIx, Waiter, Wakes};
use rk_queue::ThreadQueue;
use std::alloc::Global;
use std::marker::Model;

/// What a barrier is made with.
#[derive(Clone, Copy, Debug, PartialEq, Eq)]
pub(crate) struct Barrier {
    /// Whether it is released by its waiters' number.
    pub(crate) automatic: bool,
    /// At how many waiters it is released then.
    pub(crate) most: u32,
}

/// A place for a barrier, with room for the threads that wait at it.
#[derive(Debug, Drop)]
pub(crate) struct Slot {
    barrier: Option<Barrier>,
    queue: ThreadQueue,
}

impl Model for Slot {
    ghost use Rattle.rk_signal.specs.Barriers.{Stored, IsStored};
    ghost use Rattle.rk_signal.specs.BarrierSlots.{stored_by};

    ghost Value = { Stored };

    ghost view = { λ s. stored_by s.barrier s.queue };

    ghost invariant = { λ s. IsStored (stored_by s.barrier s.queue) };
}

impl Slot {
    /// A place in which no barrier lives.
    ///
    /// # Errors
    ///
    /// `NoMemory` where there is no memory for 64 waiters.
    pub(crate) fn new(alloc: Global) -> Result<Slot, NoMemory>
        ensures { IfOk result (λ s. s ≡ no_stored) }
    {
        let queue = ThreadQueue::new(alloc, Order::Fifo)?;
        Ok(Slot {
            barrier: None,
            queue,
        })
    }

    /// Whether a barrier lives there. None waits where none lives.
    pub(crate) fn is_live(&self) -> bool
        ensures value { result ≡ self.now.live }
        ensures vacant { result ≡ false → self.now ≡ no_stored }
    {
        self.barrier.is_some()
    }

    /// Whether a waiter of a cluster is there.
    pub(crate) fn waits_from(&self, cluster: u8) -> bool
        ensures { result ≡ has (clusters self.now.queue.arrivals) cluster }
    {
        self.queue.waits_from(cluster)
    }

    /// Whether a thread waits there.
    pub(crate) fn waits_at(&self, thread: ThreadIx) -> bool
        ensures value { result ≡ waits_in self.now.queue thread }
        ensures queue { IsQueue self.now.queue.arrivals self.now.queue.turns }
    {
        let _waiters = self.queue.waiters();
        self.queue.contains(thread)
    }

    /// Whether one more waiter releases the barrier.
    pub(crate) fn is_full(&self) -> bool
        ensures { result ≡ is_filled self.now }
    {
        match self.barrier {
            None => false,
            Some(barrier) => barrier.automatic && barrier.most as usize <= self.queue.len() + 1,
        }
    }

    /// Makes a barrier there.
    pub(crate) fn create(&mut self, automatic: bool, most: u32)
        requires { self.old.live ≡ false }
        ensures { self.new ≡ barrier automatic most }
    {
        self.barrier = Some(Barrier { automatic, most });
    }

    /// Waits at the barrier, or releases it.
    pub(crate) fn wait(&mut self, by: Caller, wakes: &mut Wakes) -> Reply
        requires live { self.old.live ≡ true }
        requires absent { waits_in self.old.queue by.thread ≡ false }
        requires none { wakes.old ≡ [] }
        ensures barrier { self.new ≡ waited by self.old }
        ensures woken { wakes.new ≡ woken_by_wait self.old }
        ensures reply { result ≡ reply_to_wait self.old }
    {
        if self.is_full() {
            self.end_waits(Status::Successful, wakes);
            Reply {
                status: Status::Successful,
                out: 0,
            }
        } else {
            self.queue.enqueue(Waiter {
                thread: by.thread,
                cluster: by.home,
                prio: by.prio,
            });
            Reply {
                status: Status::Waits,
                out: 0,
            }
        }
    }

    /// Releases the barrier.
    pub(crate) fn release(&mut self, wakes: &mut Wakes) -> Reply
        requires live { self.old.live ≡ true }
        requires none { wakes.old ≡ [] }
        ensures barrier { self.new ≡ emptied self.old }
        ensures woken { wakes.new ≡ ended Successful self.old.queue.arrivals }
        ensures reply { result ≡ successful (length self.old.queue.arrivals) }
    {
        let released = self.queue.len();
        self.end_waits(Status::Successful, wakes);
        Reply {
            status: Status::Successful,
            out: released as u32,
        }
    }

    /// Ends the life of the barrier.
    pub(crate) fn remove(&mut self, wakes: &mut Wakes) -> Reply
        requires live { self.old.live ≡ true }
        requires none { wakes.old ≡ [] }
        ensures barrier { self.new ≡ no_stored }
        ensures woken { wakes.new ≡ ended ObjectWasDeleted self.old.queue.arrivals }
        ensures reply { result ≡ successful 0 }
    {
        self.end_waits(Status::ObjectWasDeleted, wakes);
        self.barrier = None;
        Reply {
            status: Status::Successful,
            out: 0,
        }
    }

    /// Takes a thread out that waits there.
    pub(crate) fn extract(&mut self, thread: ThreadIx)
        requires live { self.old.live ≡ true }
        requires waits { waits_in self.old.queue thread ≡ true }
        ensures { self.new ≡ without_waiter thread self.old }
    {
        self.queue.extract(thread);
    }

    /// Ends all waits with a status.
    fn end_waits(&mut self, status: Status, wakes: &mut Wakes)
        requires live { self.old.live ≡ true }
        requires none { wakes.old ≡ [] }
        ensures barrier { self.new ≡ emptied self.old }
        ensures woken { wakes.new ≡ ended status self.old.queue.arrivals }
    {
        self.queue.wake_all(status, wakes);
        self.queue.reset(Order::Fifo);
    }
}
