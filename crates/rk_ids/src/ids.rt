ghost use Rattle.std.specs.Prelude.{◌≡◌, ◌≢◌, ◌↔◌, ◌≤◌, [], ◌==◌, length, IfOk, IfSome, IfNone, OnErr, Err, true};
ghost use Rattle.std.specs.List.{range_with_len};
ghost use Rattle.rk_model.specs.declared.limits.TheConstants.{MOST_OBJECTS};
ghost use Rattle.rk_model.specs.Ids.{id_of, index_in};
ghost use Rattle.rk_model.specs.Names.{no_names, given_back, least_named, lesser};
ghost use Rattle.rk_ids.specs.declared.ids.IdError.TheVariants.{InvalidName, TooMany};
ghost use Rattle.rk_ids.specs.LiveObjects.{objects, lives_at, live_index, optional_id, IsLeastNamed, NoneIsNamed, IsMade, IsSplit};

use rk_model::limits::MOST_OBJECTS;
use rk_model::{Bounded, Class, Id, Name, Named, NoMemory, position_of};
use std::alloc::Global;
use std::marker::Model;

/// Why an object can't be made.
#[derive(Clone, Copy, Debug, PartialEq, Eq)]
pub enum IdError {
    /// Its name is 0.
    InvalidName,
    /// 64 objects of its class live.
    TooMany,
}

/// The ids and names of the objects of a class, of which at most 64 live. Contracts see the class,
/// the live objects and the free indices, of which each index from 1 to 64 is one or the other.
#[derive(Debug, Drop)]
pub struct Ids {
    class: Class,
    live: Bounded<Named, MOST_OBJECTS>,
    free: Bounded<u16, MOST_OBJECTS>,
}

impl Model for Ids {
    ghost use Rattle.rk_model.specs.Names.{Names};
    ghost use Rattle.rk_ids.specs.LiveObjects.{Objects, IsSplit};

    ghost Value = { Objects };

    ghost view = { λ i. record { class = i.class; names = record { live = i.live; free = i.free } } };

    ghost invariant = { λ i. IsSplit (record { live = i.live; free = i.free }) };
}

impl Ids {
    /// No objects of a class: the indices from 1 to 64 are free in order.
    ///
    /// # Errors
    ///
    /// `NoMemory` where there is no memory for 64 of them.
    pub fn new(alloc: Global, class: Class) -> Result<Ids, NoMemory>
        ensures { IfOk result (λ i. i ≡ objects class no_names) }
    {
        let live = Bounded::new(alloc)?;
        let mut free = Bounded::new(alloc)?;
        free_all(&mut free);
        Ok(Ids { class, live, free })
    }

    /// Gives the first free index to an object of this name, and answers its id. It takes no memory.
    ///
    /// # Errors
    ///
    /// `InvalidName` exactly where the name is 0, and else `TooMany` exactly where 64 objects live,
    /// which is where no index is free. Nothing changes then.
    pub fn make(&mut self, name: Name) -> Result<Id, IdError>
        ensures made { IfOk result (λ id. IsMade id.bits name.bits self.old self.new) }
        ensures unnamed { (result ≡ Err InvalidName) ↔ (name.bits ≡ 0) }
        ensures full { (result ≡ Err TooMany) ↔ ((name.bits ≢ 0) × (length self.old.names.live ≡ MOST_OBJECTS)) }
        ensures none_free { (result ≡ Err TooMany) ↔ ((name.bits ≢ 0) × (self.old.names.free ≡ [])) }
        ensures kept { OnErr result (self.new ≡ self.old) }
    {
        if name.bits == 0 {
            return Err(IdError::InvalidName);
        }
        if self.free.is_empty() {
            return Err(IdError::TooMany);
        }
        let index = self.free.take(0);
        self.live.push(Named { index, name });
        Ok(Id::of(self.class, index))
    }

    /// The id of the live object of least index that has the name; `None` exactly where there is
    /// none.
    pub fn find(&self, name: Name) -> Option<Id>
        ensures id { result ≡ optional_id self.now.class (least_named name.bits self.now.names.live) }
        ensures least { IfSome result (λ id. IsLeastNamed id.bits name.bits self.now) }
        ensures none { IfNone result (NoneIsNamed name.bits self.now) }
    {
        self.id_named(name)
    }

    /// The id of the live object of least index that has the name, if there is one.
    fn id_named(&self, name: Name) -> Option<Id>
        ensures id { result ≡ optional_id self.now.class (least_named name.bits self.now.names.live) }
        ensures split { IsSplit self.now.names }
    {
        let index = least_index(self.live.as_slice(), name)?;
        Some(Id::of(self.class, index))
    }

    /// The index of the live object whose id it is, from 1 to 64; `None` exactly where it is that of
    /// none.
    pub fn index_of(&self, id: Id) -> Option<u16>
        ensures index { result ≡ live_index self.now (index_in self.now.class id.bits) }
        ensures few { IfSome result (λ index. (1 ≤ index) × (index ≤ MOST_OBJECTS)) }
        ensures lives { IfSome result (λ index. lives_at self.now index ≡ true) }
    {
        let index = id.index_in(self.class)?;
        if self.is_live(index) {
            Some(index)
        } else {
            None
        }
    }

    /// Whether an object of this index lives. Its contract also tells that each index from 1 to 64 is
    /// that of one live object or is free, and no other is either.
    pub fn is_live(&self, index: u16) -> bool
        ensures lives { result ≡ lives_at self.now index }
        ensures split { IsSplit self.now.names }
    {
        position_of(self.live.as_slice(), index) < self.live.len()
    }

    /// Ends the life of an object. Its index goes last among the free ones. It takes no memory.
    pub fn give_back(&mut self, index: u16)
        requires { lives_at self.old index ≡ true }
        ensures { self.new ≡ objects self.old.class (given_back self.old.names index) }
    {
        let at = position_of(self.live.as_slice(), index);
        self.live.take(at);
        self.free.push(index);
    }
}

/// Puts the indices from 1 to 64 into an empty list, in order.
fn free_all(free: &mut Bounded<u16, MOST_OBJECTS>)
    requires { free.old ≡ [] }
    ensures { free.new ≡ range_with_len 1 MOST_OBJECTS }
{
    for before in 0..MOST_OBJECTS as u16 {
        free.push(before + 1);
    }
}

/// The least index of the objects that have the name; `None` exactly where there is none.
fn least_index(objects: &[Named], name: Name) -> Option<u16>
    ensures { result ≡ least_named name.bits objects.now }
{
    let mut least = None;
    for object in objects {
        if object.name == name {
            least = Some(lesser(object.index, least));
        }
    }
    least
}

/// The lesser of an index and another, if there is another.
fn lesser(index: u16, other: Option<u16>) -> u16
    ensures { result ≡ lesser index other }
{
    match other {
        None => index,
        Some(other) => index.min(other),
    }
}
