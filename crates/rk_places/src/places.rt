ghost use Rattle.std.specs.Prelude.{◌≡◌, ◌≤◌, ◌<◌, [], ◌∷◌, ◌++◌, length, IfOk};
ghost use Rattle.std.specs.Borrow.{Lends, sem};
ghost use Rattle.std.specs.List.{slice_index_or};
ghost use Rattle.rk_places.specs.Stores.{IsOfGroup, IsFull, no_items, item_at, put_item, with_item, place_of};
ghost use Rattle.rk_places.specs.contracts.places.Places.{the_row};

use rk_model::limits::MOST_OBJECTS;
use rk_model::{Bounded, NoMemory};
use slab::Slab;
use std::alloc::Global;
use std::marker::Model;

/// How many groups the indices are of.
pub const GROUPS: u16 = 4;

/// How many places a group has.
pub const PLACES: usize = MOST_OBJECTS / GROUPS as usize;

/// The places of a group: one for each index from 1 to 64 whose (index - 1) mod 4 is the group's
/// number. Contracts see the number, and what stands at the places in the order of their indices.
///
/// The places are made one by one (`push`), and may be read and changed once all 16 are. Only `new`
/// allocates.
#[derive(Debug, Drop)]
pub struct Places<T> {
    group: u8,
    slots: Slab<T>,
    /// The keys of the places, in the order of their indices.
    keys: Bounded<usize, PLACES>,
}

impl<T> Model for Places<T> {
    ghost use Rattle.rk_places.specs.Stores.{GroupItems, group_items_code};
    ghost use Rattle.rk_places.specs.SlabKeys.{placed, IsHeld};

    ghost Value = { GroupItems T };

    ghost coded = { group_items_code T.code };

    ghost view = { λ s. record { group = s.group; items = placed s.slots s.keys } };

    ghost invariant = { λ s. IsHeld s.group s.slots s.keys };
}

impl<T: Drop> Places<T> {
    /// No places of a group, whose number is from 0 to 3, and room for its 16.
    ///
    /// # Errors
    ///
    /// `NoMemory` where there is no memory for them.
    pub fn new(alloc: Global, group: u8) -> Result<Places<T>, NoMemory>
        requires { group < 4 }
        ensures { IfOk result (λ s. s ≡ no_items group) }
    {
        let slots = Slab::with_capacity(alloc, PLACES)?;
        let keys = Bounded::new(alloc)?;
        Ok(Places { group, slots, keys })
    }

    /// Makes the place of the next index of the group, of which fewer than 16 have one, and puts
    /// something there. It allocates nothing.
    pub fn push(&mut self, slot: T)
        requires { length self.old.items < PLACES }
        ensures { self.new ≡ with_item self.old slot }
    {
        let key = self.slots.insert_reserved(slot);
        self.keys.push(key);
    }
}

impl<T> Places<T> {
    /// What stands at the place of an index of the group, all of whose places are made.
    pub fn at(&self, index: u16) -> &T
        requires full { IsFull self.now }
        requires place { IsOfGroup self.now.group index }
        ensures { result.now ≡ item_at result.now self.now index }
    {
        &self.slots[key_at(&self.keys, index)]
    }

    /// What stands at the place of an index of the group, all of whose places are made, to be changed.
    pub fn at_mut(&mut self, index: u16) -> &mut T
        requires full { IsFull self.old }
        requires place { IsOfGroup self.old.group index }
        ensures* writes_back { sem 𝓛 (Lends (the_row T.row) T.row self.entry result (put_item self.entry.now index)) }
        ensures value { result.now ≡ item_at result.now self.old index }
    {
        let key = key_at(&self.keys, index);
        &mut self.slots[key]
    }

    /// The number of the group, from 0 to 3.
    pub fn group(&self) -> u8
        ensures value { result ≡ self.now.group }
        ensures below { result < 4 }
    {
        self.group
    }
}

/// The key of the place of an index.
fn key_at(keys: &Bounded<usize, PLACES>, index: u16) -> usize
    requires low { 1 ≤ index }
    requires high { index ≤ MOST_OBJECTS }
    requires count { length keys.now ≡ PLACES }
    ensures { result ≡ slice_index_or keys.now (place_of index) 0 }
{
    keys.as_slice()[((index - 1) / GROUPS) as usize]
}
