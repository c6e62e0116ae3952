//! The rule of the board, and what its four kinds of step do.
use crate::views::Known;
use atomic_table::{Join, Play, Seat, Split, Table, TableRule};
use rk_model::{Entry, What};
use std::alloc::Global;
use std::marker::{Brand, PhantomData};

/// The table of `atomic_table` on which the journal rests: one word, and no slots.
pub(crate) type Board = Table<(), Known, (), Rule, Global>;

/// A token of the board, which takes no memory: the journal's, a mark's or a front's.
pub(crate) type Token = Seat<(), Known>;

/// The rule of the board: its word is the length of the history, one token is the journal's and knows
/// the whole history, each other one knows a beginning of it, and no key is had twice.
pub struct Rule;

impl TableRule<(), Known, ()> for Rule {
    ghost use Rattle.std.specs.Prelude.{[]};
    ghost use Rattle.rk_model.specs.Keys.{all_keys};
    ghost use Rattle.rk_journal.specs.JournalRule.{Kept, writer};

    ghost holds = { λ _ s. Kept s };

    ghost first = { λ _. writer [] all_keys };
}

/// A name of the entry that a step `Append` adds, for contracts alone. Each call picks its own.
pub trait Adding {
    ghost use Rattle.rk_model.specs.declared.entry.Entry.{Entry};

    ghost entry: { Entry };
}

impl Adding for Brand {
    ghost use Rattle.rk_model.specs.declared.entry.What.TheVariants.{End};

    ghost entry = { record { seat = 8; what = End; task = 0; body = 0; line = 0; status = 0; out = 0 } };
}

/// The step `fetch_add`: the history goes on with the entry of N.
pub(crate) struct Append<N> {
    of: PhantomData<N>,
}

impl<N: Adding> Play<(), Known> for Append<N> {
    ghost use Rattle.rk_journal.specs.JournalRule.{Appends};

    ghost then = { Appends N.entry };
}

/// The step `load`: the journal's token learns of the entries after the front that it took in.
pub(crate) struct Look;

impl Play<(), Known> for Look {
    ghost use Rattle.rk_journal.specs.JournalRule.{Looks};

    ghost then = { Looks };
}

/// The step `split_seat` for a mark: the first key goes to the new token.
pub(crate) struct FirstKey;

impl Split<Known> for FirstKey {
    ghost use Rattle.rk_journal.specs.JournalRule.{without_first, with_first};

    ghost left = { without_first };

    ghost right = { with_first };
}

/// The step `split_seat` for a front: no key goes to the new token.
pub(crate) struct NoKey;

impl Split<Known> for NoKey {
    ghost use Rattle.rk_journal.specs.JournalRule.{with_none};

    ghost left = { λ v. v };

    ghost right = { with_none };
}

/// The step `join_seat`: the journal's token takes in another with its keys.
pub(crate) struct TakeIn;

impl Join<Known> for TakeIn {
    ghost use Rattle.rk_journal.specs.JournalRule.{joined, spent};

    ghost both = { joined };

    ghost spent = { spent };
}
