ghost use Rattle.std.specs.Prelude.{◌≡◌, [], ◌∷◌, ◌++◌, ◌+◌, ◌<◌, ◌≤◌, ◌==◌, IfOk, IfSome, IfNone, true, false, nat_le, length, take, drop, count_by};
ghost use Rattle.std.specs.List.{slice_index_or};
ghost use Rattle.rk_model.specs.declared.limits.TheConstants.{MOST_OBJECTS};
ghost use Rattle.rk_model.specs.Lists.{has};
ghost use Rattle.rk_model.specs.Scheduling.ReadyQueues.{nth_urgent};
ghost use Rattle.rk_line.specs.Places.{threads, prio_in, without, with_prio, prio_at, more_urgent};

use rk_model::limits::MOST_OBJECTS;
use rk_model::{Bounded, Keyed, NoMemory, Prio, ThreadIx, position_of};
use std::alloc::Global;
use std::marker::Model;

/// A place of a ready queue: a thread, and the priority that it has there.
#[derive(Clone, Copy, Debug, PartialEq, Eq)]
pub struct Place {
    /// The thread.
    pub thread: ThreadIx,
    /// Its priority.
    pub prio: Prio,
}

impl Keyed for Place {
    type Key = ThreadIx;

    ghost use Rattle.std.specs.Prelude.{◌==◌};

    ghost is_of = { λ place thread. place.thread == thread };

    fn has_key(&self, key: ThreadIx) -> bool {
        self.thread == key
    }
}

impl Place {
    /// The place of a thread that has a priority there.
    pub fn new(thread: ThreadIx, prio: Prio) -> Place
        ensures value { result ≡ record { thread = thread; prio = prio } }
        ensures low { 1 ≤ result.thread }
        ensures high { result.thread ≤ MOST_OBJECTS }
    {
        // Reading the index tells its range.
        let _index = thread.at();
        Place { thread, prio }
    }
}

/// A ready queue of at most 64 threads, each of which stands in it once. Contracts see the list of
/// its places.
#[derive(Debug, Drop)]
pub struct Line {
    places: Bounded<Place, MOST_OBJECTS>,
}

impl Model for Line {
    ghost use Rattle.std.specs.Prelude.{List};
    ghost use Rattle.rk_line.specs.declared.line.Place.{Place};
    ghost use Rattle.rk_line.specs.Places.{IsLine};

    ghost Value = { List Place };

    ghost view = { λ l. l.places };

    ghost invariant = { λ l. IsLine l.places };
}

impl Line {
    /// An empty ready queue, with room for 64 threads.
    ///
    /// # Errors
    ///
    /// `NoMemory` where there is no memory for them.
    pub fn new(alloc: Global) -> Result<Line, NoMemory>
        ensures { IfOk result (λ l. l ≡ []) }
    {
        Ok(Line {
            places: Bounded::new(alloc)?,
        })
    }

    /// Whether the thread stands in the ready queue.
    pub fn contains(&self, thread: ThreadIx) -> bool
        ensures { result ≡ has (threads self.now) thread }
    {
        position_of(self.places.as_slice(), thread) < self.places.len()
    }

    /// Puts a thread behind all others. It takes no memory.
    pub fn append(&mut self, thread: ThreadIx, prio: Prio)
        requires { has (threads self.old) thread ≡ false }
        ensures { self.new ≡ self.old ++ (record { thread = thread; prio = prio }) ∷ [] }
    {
        self.places.push(Place::new(thread, prio));
    }

    /// Puts a thread in front of all others. It takes no memory.
    pub fn prepend(&mut self, thread: ThreadIx, prio: Prio)
        requires { has (threads self.old) thread ≡ false }
        ensures { self.new ≡ (record { thread = thread; prio = prio }) ∷ self.old }
    {
        self.places.insert(0, Place::new(thread, prio));
    }

    /// Takes a thread out.
    pub fn remove(&mut self, thread: ThreadIx)
        requires { has (threads self.old) thread ≡ true }
        ensures { self.new ≡ without thread self.old }
    {
        let at = position_of(self.places.as_slice(), thread);
        self.places.take(at);
    }

    /// Gives a thread another priority at its place.
    pub fn change(&mut self, thread: ThreadIx, prio: Prio)
        requires { has (threads self.old) thread ≡ true }
        ensures { self.new ≡ with_prio thread prio self.old }
    {
        let at = position_of(self.places.as_slice(), thread);
        self.places.set(at, Place { thread, prio });
    }

    /// The thread with exactly `n` more urgent ones: those whose priority is less, and those whose
    /// priority is equal and which stand in front of it. `None` exactly where the ready queue has
    /// at most `n` threads.
    pub fn nth_urgent(&self, n: u8) -> Option<ThreadIx>
        ensures value { result ≡ nth_urgent (prio_in self.now) n (threads self.now) }
        ensures some { IfSome result (λ t. n < length self.now) }
        ensures none { IfNone result (length self.now ≤ n) }
        ensures stands { IfSome result (λ t. has (threads self.now) t ≡ true) }
    {
        let places = self.places.as_slice();
        for (at, place) in places.iter().enumerate() {
            if has_rank(places, at, n) {
                return Some(place.thread);
            }
        }
        None
    }
}

/// What is left of a number after one is taken away for each place whose priority is at most
/// `most`. `None` exactly where there are more of these than the number; it stops at the first too
/// many.
fn left_after(places: &[Place], most: u8, number: u8) -> Option<u8>
    ensures some { IfSome result (λ left. left + count_by (λ place. nat_le place.prio most) places.now ≡ number) }
    ensures none { IfNone result (number < count_by (λ place. nat_le place.prio most) places.now) }
{
    let mut left = number;
    for place in places {
        if place.prio.level() <= most {
            if left == 0 {
                return None;
            }
            left -= 1;
        }
    }
    Some(left)
}

/// Whether exactly `n` places are more urgent than that at `at`.
fn has_rank(places: &[Place], at: usize, n: u8) -> bool
    requires { at < length places.now }
    ensures { result ≡ (more_urgent (take at places.now) (prio_at places.now at) (drop (at + 1) places.now) == n) }
{
    let prio = places[at].prio.level();
    match left_after(&places[..at], prio, n) {
        None => false,
        Some(left) => left_after(&places[at + 1..], prio - 1, left) == Some(0),
    }
}
