//! The names and the indices of the objects of all classes.

ghost use Rattle.std.specs.Prelude.{◌≡◌, ◌≤◌, IfOk, IfSome, true};
ghost use Rattle.rk_model.specs.declared.limits.TheConstants.{MOST_OBJECTS};
ghost use Rattle.rk_model.specs.Names.{no_objects, names_of, with_names, lives, given_back, least_named};
ghost use Rattle.rk_ids.specs.LiveObjects.{IsSplit, objects};
ghost use Rattle.rk_parts.specs.NamesAgree.{TakesFirst, taken_by, taken_in};

use rk_ids::Ids;
use rk_model::{Class, Name, NoMemory};
use std::alloc::Global;
use std::marker::Model;

/// The names and the indices of the objects of each class. Contracts see the live objects and the
/// free indices.
#[derive(Debug, Drop)]
pub struct Table {
    tasks: Ids,
    semaphores: Ids,
    partitions: Ids,
    periods: Ids,
    barriers: Ids,
}

impl Model for Table {
    ghost use Rattle.std.specs.Prelude.{◌≡◌};
    ghost use Rattle.rk_model.specs.declared.ids.Class.TheVariants.{Task, Semaphore, Partition, Period, Barrier};
    ghost use Rattle.rk_model.specs.Names.{Table as TableView};

    ghost Value = { TableView };

    ghost view = { λ t. record { tasks = t.tasks.names; semaphores = t.semaphores.names; partitions = t.partitions.names; periods = t.periods.names; barriers = t.barriers.names } };

    ghost invariant = { λ t. (t.tasks.class ≡ Task) × (t.semaphores.class ≡ Semaphore) × (t.partitions.class ≡ Partition) × (t.periods.class ≡ Period) × (t.barriers.class ≡ Barrier) };
}

/// Gives the first free index of a class to an object of this name, and answers it; `None` exactly
/// where 64 objects live, and then nothing changes.
fn make_in(ids: &mut Ids, class: Class, name: Name) -> Option<u16>
    requires class { ids.old.class ≡ class }
    requires named { 1 ≤ name.bits }
    ensures taken { TakesFirst ids.old.names.free (taken_by name.bits ids.old.names) result ids.old.names ids.new.names }
    ensures class { ids.new.class ≡ class }
    ensures within { IfSome result (λ index. (1 ≤ index) × (index ≤ MOST_OBJECTS)) }
{
    match ids.make(name) {
        Ok(id) => id.index_in(class),
        Err(_) => None,
    }
}

impl Table {
    /// No object, and all indices free.
    ///
    /// # Errors
    ///
    /// `NoMemory` where there is no memory for 64 objects of each class.
    pub fn new(alloc: Global) -> Result<Table, NoMemory>
        ensures { IfOk result (λ table. table ≡ no_objects) }
    {
        Ok(Table {
            tasks: Ids::new(alloc, Class::Task)?,
            semaphores: Ids::new(alloc, Class::Semaphore)?,
            partitions: Ids::new(alloc, Class::Partition)?,
            periods: Ids::new(alloc, Class::Period)?,
            barriers: Ids::new(alloc, Class::Barrier)?,
        })
    }

    /// The ids of a class.
    fn ids(&self, class: Class) -> &Ids
        ensures { result.now ≡ objects class (names_of class self.now) }
    {
        match class {
            Class::Task => &self.tasks,
            Class::Semaphore => &self.semaphores,
            Class::Partition => &self.partitions,
            Class::Period => &self.periods,
            Class::Barrier => &self.barriers,
        }
    }

    /// Gives the first free index of a class to an object of this name, and answers it; `None`
    /// exactly where 64 objects of the class live, and then nothing changes.
    pub fn make(&mut self, class: Class, name: Name) -> Option<u16>
        requires { 1 ≤ name.bits }
        ensures taken { TakesFirst (names_of class self.old).free (taken_in class name.bits self.old) result self.old self.new }
        ensures within { IfSome result (λ index. (1 ≤ index) × (index ≤ MOST_OBJECTS)) }
    {
        match class {
            Class::Task => make_in(&mut self.tasks, class, name),
            Class::Semaphore => make_in(&mut self.semaphores, class, name),
            Class::Partition => make_in(&mut self.partitions, class, name),
            Class::Period => make_in(&mut self.periods, class, name),
            Class::Barrier => make_in(&mut self.barriers, class, name),
        }
    }

    /// The least index of the live objects of a class that have the name; `None` exactly where there
    /// is no such object.
    pub fn find(&self, class: Class, name: Name) -> Option<u16>
        ensures least { result ≡ least_named name.bits (names_of class self.now).live }
        ensures within { IfSome result (λ index. (1 ≤ index) × (index ≤ MOST_OBJECTS)) }
    {
        self.ids(class).find(name)?.index_in(class)
    }

    /// Ends the life of an object. Its index goes last among the free ones.
    pub fn give_back(&mut self, class: Class, index: u16)
        requires { lives (names_of class self.old) index ≡ true }
        ensures { self.new ≡ with_names class (given_back (names_of class self.old) index) self.old }
    {
        match class {
            Class::Task => self.tasks.give_back(index),
            Class::Semaphore => self.semaphores.give_back(index),
            Class::Partition => self.partitions.give_back(index),
            Class::Period => self.periods.give_back(index),
            Class::Barrier => self.barriers.give_back(index),
        }
    }
}
