//! The journal of a run: the one writer of its history, and marks and fronts, which know beginnings
//! of it.
//!
//! An entry is appended under some keys, and only with the marks of these keys. So no entry after a
//! mark's front has the mark's key, and whoever holds the mark of a part knows that the part still
//! stands as it stood at that front.
//!
//! What marks and fronts know exists in proofs alone, and costs no memory. It rests on a board, a table
//! of `atomic_table` with one word, the length of the history. A token of a board (its `Seat`) is no
//! seat of the kernel, which is a processor or the clock.
#![tactic(auto)]

mod appending;
mod journal;
mod marks;
mod rule;
mod steps;
#[cfg(test)]
mod tests;
mod views;

pub use appending::{Appended, append};
pub use journal::{Front, Journal, JournalState, Opening, close_journal, meet, note, open_journal};
pub use marks::{Held, Mark, Marks};
pub use rule::{Adding, Rule};
pub use views::{Known, Noted, Old};
