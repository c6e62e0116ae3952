ghost use Rattle.std.specs.Prelude.{◌≡◌, ◌≤◌, ◌&&◌, ◌||◌, ◌==◌, not, ℕ, false, IfNone, IfSome, IsTrue};
ghost use Rattle.rk_model.specs.declared.limits.TheConstants.{MOST_OBJECTS};
ghost use Rattle.rk_model.specs.IndexSets.{is_in, IsTaken};

use crate::limits::MOST_OBJECTS;
use crate::marks::{least, with, without};

/// A set of indices of objects, each from 1 to 64.
#[derive(Clone, Copy, Debug, PartialEq, Eq)]
pub struct IndexSet {
    /// The index i is in the set where bit i - 1 is 1.
    marks: u64,
}

impl IndexSet {
    /// The set of no index.
    pub fn empty() -> IndexSet
        ensures { (i : ℕ) → is_in result i ≡ false }
    {
        IndexSet { marks: 0 }
    }

    /// Whether no index is in the set.
    pub fn is_empty(self) -> bool
        ensures { IsTrue result → (i : ℕ) → is_in self i ≡ false }
    {
        self.marks == 0
    }

    /// Whether an index is in the set.
    pub fn contains(self, index: u8) -> bool
        requires low { 1 ≤ index }
        requires high { index ≤ MOST_OBJECTS }
        ensures { result ≡ is_in self index }
    {
        (self.marks >> u32::from(index - 1)) & 1 == 1
    }

    /// Puts an index into the set.
    pub fn insert(&mut self, index: u8)
        requires low { 1 ≤ index }
        requires high { index ≤ MOST_OBJECTS }
        ensures { (i : ℕ) → is_in self.new i ≡ ((index == i) || is_in self.old i) }
    {
        self.marks = with(self.marks, index - 1);
    }

    /// Takes an index out of the set.
    pub fn remove(&mut self, index: u8)
        requires low { 1 ≤ index }
        requires high { index ≤ MOST_OBJECTS }
        ensures { (i : ℕ) → is_in self.new i ≡ (not (index == i) && is_in self.old i) }
    {
        self.marks = without(self.marks, index - 1);
    }

    /// Puts all indices of another set into the set.
    pub fn insert_all(&mut self, other: IndexSet)
        ensures { (i : ℕ) → is_in self.new i ≡ (is_in other i || is_in self.old i) }
    {
        self.marks = other.marks | self.marks;
    }

    /// Takes the least index out of the set, and gives it; `None` exactly where there is none.
    pub fn take_least(&mut self) -> Option<u8>
        ensures some { IfSome result (λ index. IsTaken self.old index self.new) }
        ensures none { IfNone result ((i : ℕ) → is_in self.old i ≡ false) }
    {
        if self.marks == 0 {
            return None;
        }
        let at = least(self.marks);
        self.marks = without(self.marks, at);
        Some(at + 1)
    }
}
