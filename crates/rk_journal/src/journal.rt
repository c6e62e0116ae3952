//! The journal: its opening, what is asked of it between two appends, and its end.
ghost use Rattle.std.specs.Prelude.{◌≡◌, ◌≤◌, [], length, IfOk};
ghost use Rattle.rk_model.specs.declared.keys.TheConstants.{KEYS};
ghost use Rattle.rk_model.specs.Keys.{all_keys};
ghost use Rattle.rk_journal.specs.Logs.{Quiet, entries_of};
ghost use Rattle.rk_journal.specs.Tokens.{IsWriter};
ghost use Rattle.rk_journal.specs.MarkRegisters.{AreFirst, AreOf};
ghost use Rattle.rk_journal.specs.JournalAnswers.{state_of};

use crate::marks::{Mark, Marks, issue};
use crate::rule::{Board, Token};
use crate::steps::{give_front, give_out, take_in};
use rk_model::keys::KEYS;
use rk_model::{History, NoMemory, ends_with_end};
use std::alloc::Global;
use std::marker::Model;

/// The one writer of a history with a limit of its entries. Contracts see its opening, the limit, and
/// the history, each entry with the keys under which it was appended.
#[derive(Drop)]
pub struct Journal {
    pub(crate) board: Board,
    pub(crate) token: Token,
    pub(crate) history: History,
    limit: u32,
}

impl Model for Journal {
    ghost use Rattle.std.specs.Prelude.{◌≡◌, ◌+◌, ◌≤◌, [], length};
    ghost use Rattle.rk_journal.specs.Logs.{entries_of};
    ghost use Rattle.rk_journal.specs.JournalViews.{JournalView};
    ghost use Rattle.rk_journal.specs.Tokens.{IsWriter};

    ghost Value = { JournalView };

    ghost view = { λ j. record { opening = j.board.shared.table_id; limit = j.limit; log = j.token.me.0.list } };

    ghost invariant = { λ j. (j.token.table_id ≡ j.board.shared.table_id) × (j.board.shared.table_id.words ≡ 1) × (j.board.shared.table_id.slots ≡ 0) × IsWriter j.token j.token.me.0.list [] × (j.history.entries ≡ entries_of j.token.me.0.list) × (length j.token.me.0.list ≤ j.limit) × (j.limit ≤ length j.token.me.0.list + j.history.spare) };
}

/// A beginning of the history that was seen, without a key. Contracts see also the opening that it is
/// of.
#[derive(Drop)]
pub struct Front {
    token: Token,
}

impl Model for Front {
    ghost use Rattle.std.specs.Prelude.{◌≡◌, []};
    ghost use Rattle.rk_journal.specs.JournalRule.{holder};
    ghost use Rattle.rk_journal.specs.JournalViews.{FrontView};

    ghost Value = { FrontView };

    ghost view = { λ f. record { opening = f.token.table_id; front = f.token.me.0.list } };

    ghost invariant = { λ f. f.token.me ≡ (holder f.token.me.0.list [], []) };
}

/// A journal with an empty history, and the mark of each key.
#[derive(Drop)]
pub struct Opening {
    pub journal: Journal,
    pub marks: Marks,
}

/// Whether a history may go on.
#[derive(Clone, Copy, Debug, PartialEq, Eq)]
pub enum JournalState {
    /// It may go on.
    Open,
    /// It has as many entries as its limit, and doesn't end with End.
    Full,
    /// It ends with End.
    Over,
}

/// Opens a journal of at most `limit` entries, with an empty history, and the mark of each key, whose
/// front is empty. It takes the memory for all entries; no later call takes any.
///
/// # Errors
///
/// `NoMemory` where there is no memory for it.
pub fn open_journal(alloc: Global, limit: u32) -> Result<Opening, NoMemory>
    ensures journal { IfOk result (λ o. (o.journal.limit ≡ limit) × (o.journal.log ≡ [])) }
    ensures marks { IfOk result (λ o. AreFirst o.journal.opening KEYS o.marks) }
    ensures of { IfOk result (λ o. AreOf o.journal.opening o.marks) }
{
    let history = History::new(alloc, limit)?;
    let Ok((board, mut token)) = Board::of_words(alloc, &[0], &()) else {
        return Err(NoMemory);
    };
    let marks = issue_all(&board, &mut token);
    let journal = Journal {
        board,
        token,
        history,
        limit,
    };
    Ok(Opening { journal, marks })
}

/// Issues the mark of each key, in the order of the keys.
fn issue_all(board: &Board, token: &mut Token) -> Marks
    requires board { (token.old.table_id ≡ board.now.shared.table_id) × (board.now.shared.table_id.words ≡ 1) }
    requires view { IsWriter token.old [] all_keys }
    ensures same { token.new.table_id ≡ token.old.table_id }
    ensures view { IsWriter token.new [] [] }
    ensures marks { AreFirst token.old.table_id KEYS result }
    ensures of { AreOf token.old.table_id result }
{
    let mut marks = Marks::new();
    for key in 0..KEYS as u8 {
        marks.put(issue(board, token, key));
    }
    marks
}

impl Journal {
    /// Whether the history may go on: `Over` exactly where it ends with End, else `Full` exactly where
    /// it has as many entries as its limit.
    pub fn state(&self) -> JournalState
        ensures state { result ≡ state_of self.now }
        ensures within { length self.now.log ≤ self.now.limit }
    {
        let entries = self.history.entries();
        if ends_with_end(entries) {
            JournalState::Over
        } else if entries.len() == self.limit as usize {
            JournalState::Full
        } else {
            JournalState::Open
        }
    }

    /// How many entries the history has, which is at most its limit.
    pub fn count(&self) -> u32
        ensures count { result ≡ length self.now.log }
        ensures within { result ≤ self.now.limit }
    {
        let _limit = self.limit;
        self.history.entries().len() as u32
    }
}

/// Lets a mark of the journal's opening see the whole history. No entry after its old front has its
/// key.
pub fn meet(journal: &mut Journal, mark: &mut Mark)
    requires { mark.old.opening ≡ journal.old.opening }
    ensures journal { journal.new ≡ journal.old }
    ensures mark { mark.new ≡ record { opening = mark.old.opening; front = journal.old.log; key = mark.old.key } }
    ensures quiet { Quiet mark.old.key mark.old.front journal.old.log }
{
    let Some(own) = mark.token.take() else {
        unreachable!()
    };
    take_in(&journal.board, &mut journal.token, own);
    mark.token = Some(give_out(&journal.board, &mut journal.token));
}

/// Returns a front of the whole history.
pub fn note(journal: &mut Journal) -> Front
    ensures journal { journal.new ≡ journal.old }
    ensures front { result ≡ record { opening = journal.old.opening; front = journal.old.log } }
{
    Front {
        token: give_front(&journal.board, &mut journal.token),
    }
}

/// Ends the journal, and returns the entries of its history, which are at most as many as its limit.
pub fn close_journal(journal: Journal) -> History
    ensures entries { result.entries ≡ entries_of journal.log }
    ensures within { length result.entries ≤ journal.limit }
{
    let Journal {
        board,
        token,
        history,
        limit: _,
    } = journal;
    board.close_with(token).free();
    history
}
