//! The append of an entry under the keys of the marks that are held.
ghost use Rattle.std.specs.Prelude.{ℕ, ◌≡◌, ◌+◌, ◌<◌, ◌^◌, [], length, None, IsSome};
ghost use Rattle.rk_model.specs.Keys.{seat_key};
ghost use Rattle.rk_journal.specs.Tokens.{IsWriter, WritesTo};
ghost use Rattle.rk_journal.specs.MarkRegisters.{mark_at, held_keys, AreKeysOf, AreOf, AreRenewed, longer};
ghost use Rattle.rk_journal.specs.JournalAnswers.{appended_of, journal_after};

use crate::journal::{Journal, JournalState};
use crate::marks::{Held, Mark, issue, withdraw};
use crate::rule::{Board, Token};
use crate::steps::add_entry;
use rk_model::Entry;

/// What an append did.
#[derive(Clone, Copy, Debug, PartialEq, Eq)]
pub enum Appended {
    /// The entry has this index in the history, from 0.
    Placed(u32),
    /// The history has as many entries as its limit. Nothing was appended.
    Full,
    /// The history ends with End. Nothing was appended.
    Over,
}

/// Appends an entry under the keys of the held marks, of which its seat's is one. `Over` exactly where
/// the history ends with End, else `Full` exactly where it has as many entries as its limit; both
/// append nothing.
///
/// In each case the held marks have then seen the whole history, this entry included, and no earlier
/// entry after a mark's old front has the mark's key. It takes no memory.
pub fn append(journal: &mut Journal, entry: Entry, held: &mut Held) -> Appended
    requires opening { AreOf journal.old.opening held.old }
    requires seat { IsSome (mark_at held.old (seat_key entry.seat)) }
    ensures answer { result ≡ appended_of journal.old }
    ensures journal { journal.new ≡ journal_after journal.old entry held.old }
    ensures keys { AreKeysOf held.old (held_keys held.old []) }
    ensures marks { AreRenewed journal.old.log journal.new.log held.old held.new }
    ensures of { AreOf journal.old.opening held.new }
    ensures there { (k : ℕ) → IsSome (mark_at held.old k) → IsSome (mark_at held.new k) }
    ensures no_others { (k : ℕ) → mark_at held.old k ≡ None → mark_at held.new k ≡ None }
{
    match journal.state() {
        JournalState::Over => {
            renew(&journal.board, &mut journal.token, &None, &mut held.slots);
            Appended::Over
        }
        JournalState::Full => {
            renew(&journal.board, &mut journal.token, &None, &mut held.slots);
            Appended::Full
        }
        JournalState::Open => {
            let at = journal.count();
            renew(
                &journal.board,
                &mut journal.token,
                &Some(entry),
                &mut held.slots,
            );
            journal.history.push(entry);
            Appended::Placed(at)
        }
    }
}

/// Withdraws the marks one after the other, adds the entry, if there is one, under all their keys, and
/// issues the marks anew, the last one first, since a mark is issued of the key that came last.
fn renew(board: &Board, token: &mut Token, entry: &Option<Entry>, slots: &mut [Option<Mark>])
    requires token { WritesTo board.now.shared.table_id token.old }
    requires marks { AreOf token.old.table_id slots.old }
    requires room { length token.old.me.0.list + 1 < 2 ^ 64 }
    ensures same { token.new.table_id ≡ token.old.table_id }
    ensures view { IsWriter token.new (longer entry.now (held_keys slots.old token.old.me.0.keys) token.old.me.0.list) token.old.me.0.keys }
    ensures marks { AreRenewed token.old.me.0.list (longer entry.now (held_keys slots.old token.old.me.0.keys) token.old.me.0.list) slots.old slots.new }
    ensures of { AreOf token.old.table_id slots.new }
{
    let Some((first, rest)) = slots.split_first_mut() else {
        if let Some(entry) = entry {
            add_entry(board, token, *entry);
        }
        return;
    };
    match first.take() {
        None => renew(board, token, entry, rest),
        Some(mark) => {
            let key = withdraw(board, token, mark);
            renew(board, token, entry, rest);
            *first = Some(issue(board, token, key));
        }
    }
}
