ghost use Rattle.std.specs.Prelude.{◌≡◌, ◌↔◌, [], true, false, None, IfOk};
ghost use Rattle.rk_model.specs.declared.status.Status.TheVariants.{Successful, ResourceInUse};
ghost use Rattle.rk_model.specs.State.{no_partition};
ghost use Rattle.rk_model.specs.Directives.Partitions.{all_buffers, is_in_use, is_out, memory_refusal, new_partition, with_free};
ghost use Rattle.rk_partition.specs.Partitions.{without_first, reply_to_get, IsTaken, HasOut, returned, reply_to_return, deleted, reply_to_delete};

use crate::partition::Partition;
use rk_model::limits::MOST_BUFFERS;
use rk_model::{Bounded, NoMemory, Reply, Status};
use std::alloc::Global;
use std::marker::Model;

/// A place for a partition, with room for the addresses of its free buffers.
#[derive(Debug, Drop)]
pub(crate) struct Slot {
    partition: Option<Partition>,
    free: Bounded<u32, MOST_BUFFERS>,
}

impl Model for Slot {
    ghost use Rattle.rk_model.specs.State.{PartitionState};
    ghost use Rattle.rk_partition.specs.Partitions.{IsStored};
    ghost use Rattle.rk_partition.specs.PartitionSlots.{stored_by};

    ghost Value = { PartitionState };

    ghost view = { λ s. stored_by s.partition s.free };

    ghost invariant = { λ s. IsStored (stored_by s.partition s.free) };
}

impl Slot {
    /// A place in which no partition lives.
    ///
    /// # Errors
    ///
    /// `NoMemory` where there is no memory for 1,024 addresses.
    pub(crate) fn new(alloc: Global) -> Result<Slot, NoMemory>
        ensures { IfOk result (λ s. s ≡ no_partition) }
    {
        let free = Bounded::new(alloc)?;
        Ok(Slot {
            partition: None,
            free,
        })
    }

    /// Whether a partition lives there. The place is empty where none lives.
    pub(crate) fn is_live(&self) -> bool
        ensures value { result ≡ self.now.live }
        ensures vacant { result ≡ false → self.now ≡ no_partition }
    {
        self.partition.is_some()
    }

    /// Makes a partition there, of which all buffers are free.
    pub(crate) fn create(&mut self, start: u32, length: u32, size: u32)
        requires vacant { self.old.live ≡ false }
        requires fits { memory_refusal start length size ≡ None }
        ensures { self.new ≡ new_partition start length size }
    {
        let partition = Partition {
            start,
            length,
            size,
        };
        self.partition = Some(partition);
        free_all(&mut self.free, partition);
    }

    /// Takes the first free buffer, if there is one.
    pub(crate) fn get(&mut self) -> Reply
        ensures partition { self.new ≡ without_first self.old }
        ensures reply { result ≡ reply_to_get self.old.free }
        ensures taken { result.status ≡ Successful → IsTaken result.out self.old }
    {
        if self.free.is_empty() {
            return Reply {
                status: Status::Unsatisfied,
                out: 0,
            };
        }
        let address = self.free.take(0);
        Reply {
            status: Status::Successful,
            out: address,
        }
    }

    /// Whether an address is that of a buffer that is out.
    fn is_out(&self, address: u32) -> bool
        ensures { result ≡ is_out self.now address }
    {
        match self.partition {
            None => false,
            Some(partition) => {
                partition.has(address) && !self.free.as_slice().contains(&address)
            }
        }
    }

    /// Puts a buffer that is out behind the free ones.
    fn put_last(&mut self, address: u32)
        requires { is_out self.old address ≡ true }
        ensures { self.new ≡ with_free self.old address }
    {
        self.free.push(address);
    }

    /// Takes an address back, unless it is that of no buffer that is out.
    pub(crate) fn put_back(&mut self, address: u32) -> Reply
        ensures partition { self.new ≡ returned address self.old }
        ensures reply { result ≡ reply_to_return address self.old }
    {
        if !self.is_out(address) {
            return Reply {
                status: Status::InvalidAddress,
                out: 0,
            };
        }
        self.put_last(address);
        Reply {
            status: Status::Successful,
            out: 0,
        }
    }

    /// Whether a buffer is out.
    fn is_in_use(&self) -> bool
        ensures { result ≡ is_in_use self.now }
    {
        match self.partition {
            None => false,
            Some(partition) => self.free.len() < partition.count() as usize,
        }
    }

    /// Ends the life of the partition, unless a buffer is out.
    pub(crate) fn remove(&mut self) -> Reply
        ensures partition { self.new ≡ deleted self.old }
        ensures reply { result ≡ reply_to_delete self.old }
        ensures out { (result.status ≡ ResourceInUse) ↔ HasOut self.old }
    {
        if self.is_in_use() {
            return Reply {
                status: Status::ResourceInUse,
                out: 0,
            };
        }
        self.partition = None;
        self.free.clear();
        Reply {
            status: Status::Successful,
            out: 0,
        }
    }
}

/// Puts the addresses of all buffers into an empty list, in rising order.
fn free_all(free: &mut Bounded<u32, MOST_BUFFERS>, partition: Partition)
    requires none { free.old ≡ [] }
    requires fits { memory_refusal partition.start partition.length partition.size ≡ None }
    ensures { free.new ≡ all_buffers partition.start partition.length partition.size }
{
    for before in 0..partition.count() {
        free.push(partition.start + before * partition.size);
    }
}
