ghost use Rattle.std.specs.Prelude.{◌≡◌, ◌↔◌, ◌<◌, true, false, None, IfOk};
ghost use Rattle.std.specs.Borrow.{Lends, sem};
ghost use Rattle.rk_model.specs.declared.status.Status.TheVariants.{Successful, ResourceInUse};
ghost use Rattle.rk_model.specs.State.{no_partition};
ghost use Rattle.rk_model.specs.Directives.Partitions.{memory_refusal, new_partition};
ghost use Rattle.rk_partition.specs.Partitions.{judged, without_first, reply_to_get, IsTaken, HasOut, returned, reply_to_return, deleted, reply_to_delete};
ghost use Rattle.rk_places.specs.Stores.{none_live, IsOfGroup, IsStoreOf, stored_at, put_at};

use crate::partition;
use crate::slot::Slot;
use rk_model::{NoMemory, Reply, Status};
use rk_places::{PLACES, Places};
use std::alloc::Global;
use std::marker::Model;

/// The partitions of a group: those whose index is its number and one more, or this and 4, 8 and so
/// on up to 60 more. Contracts see the number and a place for each index from 1 to 64, of which those
/// of other groups have no partition.
///
/// A partition is memory from a start address, divided into buffers of one size in bytes. Its free
/// buffers stand in a list: the first is taken first, and one that is returned goes last.
#[derive(Debug, Drop)]
pub struct PartitionStore {
    places: Places<Slot>,
}

impl Model for PartitionStore {
    ghost use Rattle.rk_model.specs.State.{PartitionState, no_partition};
    ghost use Rattle.rk_places.specs.Stores.{Store, IsFull, store_of};

    ghost Value = { Store PartitionState };

    ghost view = { λ s. store_of no_partition s.places };

    ghost invariant = { λ s. IsFull s.places };
}

impl PartitionStore {
    ghost use Rattle.rk_partition.specs.contracts.slot.Slot.{the_row as slot_row};
    ghost use Rattle.rk_partition.specs.contracts.store.PartitionStore.{the_row};

    /// The places of a group, from 0 to 3, in which no partition lives, each with room for 1,024
    /// buffers.
    ///
    /// # Errors
    ///
    /// `NoMemory` where there is no memory for them.
    pub fn new(alloc: Global, group: u8) -> Result<PartitionStore, NoMemory>
        requires { group < 4 }
        ensures { IfOk result (λ s. s ≡ none_live no_partition group) }
    {
        let mut places = Places::new(alloc, group)?;
        for _made in 0..PLACES {
            let slot = Slot::new(alloc)?;
            places.push(slot);
        }
        Ok(PartitionStore { places })
    }

    /// What making a partition answers (`rtems_partition_create`) to its start address, its length and
    /// the size of its buffers, both in bytes: why it is refused (`refusal`), else `Successful`.
    pub fn judge(start: u32, length: u32, size: u32) -> Status
        ensures { result ≡ judged start length size }
    {
        partition::judge(start, length, size)
    }

    /// Whether a partition of this index lives. Its contract also tells that the place is empty where
    /// none lives.
    pub fn is_live(&self, index: u16) -> bool
        requires { IsOfGroup self.now.group index }
        ensures value { result ≡ (stored_at no_partition self.now index).live }
        ensures vacant { result ≡ false → stored_at no_partition self.now index ≡ no_partition }
    {
        self.slot(index).is_live()
    }

    /// Makes a partition (`rtems_partition_create`) of the memory of `length` bytes from the address
    /// `start` on, which isn't refused (`refusal`). It has as many buffers of `size` bytes as go
    /// into the length, and all are free, in rising order of their addresses. It allocates nothing.
    pub fn create(&mut self, index: u16, start: u32, length: u32, size: u32)
        requires place { IsOfGroup self.old.group index }
        requires vacant { (stored_at no_partition self.old index).live ≡ false }
        requires fits { memory_refusal start length size ≡ None }
        ensures { self.new ≡ put_at self.old index (new_partition start length size) }
    {
        self.slot_mut(index).create(start, length, size);
    }

    /// Takes the first free buffer of a partition (`rtems_partition_get_buffer`). The out number is
    /// its address. Answers `Unsatisfied`, and changes nothing, where no buffer is free. Its contract
    /// also tells that the buffer was free, and is out then.
    pub fn get(&mut self, index: u16) -> Reply
        requires place { IsOfGroup self.old.group index }
        requires live { (stored_at no_partition self.old index).live ≡ true }
        ensures partition { self.new ≡ put_at self.old index (without_first (stored_at no_partition self.old index)) }
        ensures reply { result ≡ reply_to_get (stored_at no_partition self.old index).free }
        ensures taken { result.status ≡ Successful → IsTaken result.out (stored_at no_partition self.old index) }
    {
        self.slot_mut(index).get()
    }

    /// Returns a buffer to its partition (`rtems_partition_return_buffer`), where it goes last among
    /// the free ones. Answers `InvalidAddress`, and changes nothing, where the address is that of no
    /// buffer, or of one that isn't out.
    pub fn put_back(&mut self, index: u16, address: u32) -> Reply
        requires place { IsOfGroup self.old.group index }
        requires live { (stored_at no_partition self.old index).live ≡ true }
        ensures partition { self.new ≡ put_at self.old index (returned address (stored_at no_partition self.old index)) }
        ensures reply { result ≡ reply_to_return address (stored_at no_partition self.old index) }
    {
        self.slot_mut(index).put_back(address)
    }

    /// Ends the life of a partition (`rtems_partition_delete`). Answers `ResourceInUse`, and changes
    /// nothing, exactly where a buffer is out.
    pub fn remove(&mut self, index: u16) -> Reply
        requires place { IsOfGroup self.old.group index }
        requires live { (stored_at no_partition self.old index).live ≡ true }
        ensures partition { self.new ≡ put_at self.old index (deleted (stored_at no_partition self.old index)) }
        ensures reply { result ≡ reply_to_delete (stored_at no_partition self.old index) }
        ensures out { (result.status ≡ ResourceInUse) ↔ HasOut (stored_at no_partition self.old index) }
    {
        self.slot_mut(index).remove()
    }

    /// The place of an index.
    fn slot(&self, index: u16) -> &Slot
        requires { IsOfGroup self.now.group index }
        ensures { result.now ≡ stored_at no_partition self.now index }
    {
        self.places.at(index)
    }

    /// The place of an index, to be changed.
    fn slot_mut(&mut self, index: u16) -> &mut Slot
        requires { IsOfGroup self.old.group index }
        ensures* writes_back { sem 𝓛 (Lends the_row slot_row self.entry result (put_at self.entry.now index)) }
        ensures value { result.now ≡ stored_at no_partition self.old index }
    {
        self.places.at_mut(index)
    }

    /// The number of the group, from 0 to 3. Its contract also tells that there are places for 64
    /// partitions, and that at each index of another group none lives.
    pub fn group(&self) -> u8
        ensures value { result ≡ self.now.group }
        ensures store { IsStoreOf no_partition self.now }
    {
        self.places.group()
    }
}
