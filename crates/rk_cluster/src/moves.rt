ghost use Rattle.std.specs.Prelude.{◌≡◌, ◌++◌, IfOk, IsTrue, length, replicate, None};
ghost use Rattle.rk_model.specs.declared.limits.TheConstants.{MOST_OBJECTS};
ghost use Rattle.rk_line.specs.Places.{without, with_prio};
ghost use Rattle.rk_cluster.specs.Registers.{change_at, no_changes, with_change, end_place, fronts, ends, kept_places, moved};
ghost use Rattle.rk_cluster.specs.Passes.{changed_but_end, IsOut, EndsAreOut, AreMarked};

use rk_line::Line;
use rk_model::limits::MOST_OBJECTS;
use rk_model::marks::{greatest, least, with, without};
use rk_model::{Items, NoMemory, Prio, ThreadIx};
use std::alloc::Global;
use std::marker::Model;

/// What settling does to a thread of a cluster.
#[derive(Clone, Copy, Debug, PartialEq, Eq)]
pub enum Change {
    /// It leaves the ready queue, where it is in it.
    Leave,
    /// It goes to the end of the ready queue, with this priority, or comes there anew.
    ToEnd(Prio),
    /// It goes to the front of the ready queue, with this priority, or comes there anew.
    ToFront(Prio),
    /// It keeps its place in the ready queue, where it has one, with this priority.
    Stay(Prio),
}

/// A register of at most one change for each thread. Contracts see the list of the changes, and
/// speak of it by `change_at`, the change of each thread.
#[derive(Debug, Drop)]
pub struct Moves {
    changes: Items<Option<Change>>,
    /// The places of `changes` that have one, as bits.
    marks: u64,
}

impl Model for Moves {
    ghost use Rattle.std.specs.Prelude.{List, Option, ◌≡◌, length};
    ghost use Rattle.rk_cluster.specs.declared.moves.Change.{Change};
    ghost use Rattle.rk_cluster.specs.Passes.{AreMarked};
    ghost use Rattle.rk_model.specs.declared.limits.TheConstants.{MOST_OBJECTS};

    ghost Value = { List (Option Change) };

    ghost view = { λ m. m.changes };

    ghost invariant = { λ m. (length m.changes ≡ MOST_OBJECTS) × AreMarked m.marks m.changes };
}

/// Takes a thread out of a ready queue, where it stands there.
fn take_out(line: &mut Line, thread: ThreadIx)
    ensures { line.new ≡ without thread line.old }
{
    if line.contains(thread) {
        line.remove(thread);
    }
}

/// Gives a thread another priority at its place in a ready queue, where it stands there.
fn change_in(line: &mut Line, thread: ThreadIx, prio: Prio)
    ensures { line.new ≡ with_prio thread prio line.old }
{
    if line.contains(thread) {
        line.change(thread, prio);
    }
}

/// Applies one thread's change to a ready queue. A thread that goes to the end is taken out.
fn apply_but_end(line: &mut Line, thread: ThreadIx, change: Option<Change>)
    ensures { line.new ≡ changed_but_end thread change line.old }
{
    let Some(change) = change else { return };
    match change {
        Change::Leave | Change::ToEnd(_) => take_out(line, thread),
        Change::ToFront(prio) => {
            take_out(line, thread);
            line.prepend(thread, prio);
        }
        Change::Stay(prio) => change_in(line, thread, prio),
    }
}

/// Applies the changes of all threads to a ready queue. The threads that go to the end are taken out.
fn apply_but_ends(changes: &[Option<Change>], marks: u64, line: &mut Line)
    requires size { length changes.now ≡ MOST_OBJECTS }
    requires marked { AreMarked marks changes.now }
    ensures { line.new ≡ fronts (change_at changes.now) ++ kept_places (change_at changes.now) line.old }
{
    let mut rest = marks;
    let mut done = 64;
    'falling: while rest != 0 {
        let at = greatest(rest);
        apply_but_end(line, ThreadIx::new(at + 1), changes[at as usize]);
        rest = without(rest, at);
        done = at;
    }
}

/// Puts a thread that goes to the end of a ready queue there.
fn append_end(line: &mut Line, thread: ThreadIx, change: Option<Change>)
    requires { IsOut thread change line.old }
    ensures { line.new ≡ line.old ++ end_place thread change }
{
    let Some(change) = change else { return };
    if let Change::ToEnd(prio) = change {
        line.append(thread, prio);
    }
}

/// Puts the threads that go to the end of a ready queue there, in rising index.
fn append_ends(changes: &[Option<Change>], marks: u64, line: &mut Line)
    requires size { length changes.now ≡ MOST_OBJECTS }
    requires marked { AreMarked marks changes.now }
    requires out { EndsAreOut (change_at changes.now) line.old }
    ensures { line.new ≡ line.old ++ ends (change_at changes.now) }
{
    let mut rest = marks;
    let mut done = 0;
    'rising: while rest != 0 {
        let at = least(rest);
        append_end(line, ThreadIx::new(at + 1), changes[at as usize]);
        rest = without(rest, at);
        done = at + 1;
    }
}

impl Moves {
    /// No changes.
    ///
    /// # Errors
    ///
    /// `NoMemory` where there is no memory for a register of 64 threads.
    pub fn new(alloc: Global) -> Result<Moves, NoMemory>
        ensures { IfOk result (λ m. change_at m ≡ no_changes) }
    {
        let changes = vec![in alloc; None; MOST_OBJECTS]?;
        Ok(Moves {
            changes: Items::from_vec(changes),
            marks: 0,
        })
    }

    /// Puts a change in place of that of a thread.
    pub fn set(&mut self, thread: ThreadIx, change: Change)
        ensures { change_at self.new ≡ with_change (change_at self.old) thread change }
    {
        let at = thread.at() - 1;
        self.changes.set(at as usize, Some(change));
        self.marks = with(self.marks, at);
    }

    /// Takes all changes out.
    pub fn clear(&mut self)
        ensures { change_at self.new ≡ no_changes }
    {
        let mut done = 0;
        'clearing: while self.marks != 0 {
            let at = least(self.marks);
            self.changes.set(at as usize, None);
            self.marks = without(self.marks, at);
            done = at + 1;
        }
    }

    /// Whether no thread has a change; where it isn't so, one may have one.
    pub(crate) fn is_empty(&self) -> bool
        ensures { IsTrue result → change_at self.now ≡ no_changes }
    {
        self.marks == 0
    }

    /// Applies the changes to a ready queue. It takes no memory.
    pub(crate) fn apply(&self, line: &mut Line)
        ensures { line.new ≡ moved (change_at self.now) line.old }
    {
        apply_but_ends(self.changes.as_slice(), self.marks, line);
        append_ends(self.changes.as_slice(), self.marks, line);
    }
}
