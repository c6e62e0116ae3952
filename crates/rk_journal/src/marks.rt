//! Marks, and a register of marks.
ghost use Rattle.std.specs.Prelude.{ℕ, ◌≡◌, ◌≢◌, ◌<◌, ◌↔◌, [], ◌∷◌, IsSome, IsTrue, IfSome, None, Some, slice_set};
ghost use Rattle.atomic_table.specs.Seated.{TableId};
ghost use Rattle.rk_model.specs.declared.keys.TheConstants.{KEYS};
ghost use Rattle.rk_journal.specs.JournalRule.{first_key, later_keys};
ghost use Rattle.rk_journal.specs.Logs.{Quiet};
ghost use Rattle.rk_journal.specs.Tokens.{IsWriter, WritesTo};
ghost use Rattle.rk_journal.specs.MarkRegisters.{mark_at, AreOf};

use crate::rule::{Board, Token};
use crate::steps::{give_out, take_in};
use rk_model::keys::KEYS;
use std::marker::Model;

/// A key, and a beginning of the history that was seen, the mark's front. No entry after the front has
/// the key. Contracts see also the opening that the mark is of.
#[derive(Drop)]
pub struct Mark {
    pub(crate) key: u8,
    /// It is there but inside of calls, which take it out and put another in.
    pub(crate) token: Option<Token>,
}

impl Model for Mark {
    ghost use Rattle.std.specs.Prelude.{◌<◌};
    ghost use Rattle.rk_model.specs.declared.keys.TheConstants.{KEYS};
    ghost use Rattle.rk_journal.specs.JournalViews.{MarkView, mark_view};
    ghost use Rattle.rk_journal.specs.Tokens.{HasKey};

    ghost Value = { MarkView };

    ghost view = { λ m. mark_view m.key m.token };

    ghost invariant = { λ m. (m.key < KEYS) × HasKey m.key m.token };
}

impl Mark {
    /// Its key, which is below `KEYS`.
    pub fn key(&self) -> u8
        ensures key { result ≡ self.now.key }
        ensures few { result < KEYS }
    {
        self.key
    }
}

/// Makes a mark of the first key that the journal's token has. The mark has seen the whole history.
pub(crate) fn issue(board: &Board, token: &mut Token, key: u8) -> Mark
    requires token { WritesTo board.now.shared.table_id token.old }
    requires key { (first_key token.old.me.0.keys ≡ key ∷ []) × (key < KEYS) }
    ensures same { token.new.table_id ≡ token.old.table_id }
    ensures view { IsWriter token.new token.old.me.0.list (later_keys token.old.me.0.keys) }
    ensures mark { result ≡ record { opening = token.old.table_id; front = token.old.me.0.list; key = key } }
{
    Mark {
        key,
        token: Some(give_out(board, token)),
    }
}

/// Takes a mark back, and returns its key, which comes in front of those that the journal's token has.
pub(crate) fn withdraw(board: &Board, token: &mut Token, mark: Mark) -> u8
    requires token { WritesTo board.now.shared.table_id token.old }
    requires mark { mark.opening ≡ token.old.table_id }
    ensures same { token.new.table_id ≡ token.old.table_id }
    ensures view { IsWriter token.new token.old.me.0.list (mark.key ∷ token.old.me.0.keys) }
    ensures key { (result ≡ mark.key) × (result < KEYS) }
    ensures quiet { Quiet mark.key mark.front token.old.me.0.list }
{
    let Mark { key, token: own } = mark;
    let Some(own) = own else { unreachable!() };
    take_in(board, token, own);
    key
}

/// A register of marks, at most one of each key. Contracts see a list, with the mark of a key, if it is
/// in, at the key's index.
#[derive(Drop)]
pub struct Marks {
    pub(crate) slots: [Option<Mark>; KEYS],
}

impl Model for Marks {
    ghost use Rattle.std.specs.Prelude.{◌≡◌, List, Option, length};
    ghost use Rattle.rk_model.specs.declared.keys.TheConstants.{KEYS};
    ghost use Rattle.rk_journal.specs.JournalViews.{MarkView};
    ghost use Rattle.rk_journal.specs.MarkRegisters.{AreInPlace};

    ghost Value = { List (Option MarkView) };

    ghost view = { λ m. m.slots };

    ghost invariant = { λ m. (length m.slots ≡ KEYS) × AreInPlace m.slots };
}

/// The marks that an append holds. They are a register as any other, so there is one type with one set
/// of contracts; this name tells a register's use.
pub type Held = Marks;

impl Marks {
    /// A register without a mark. No function of a register takes memory.
    pub fn new() -> Marks
        ensures none { (k : ℕ) → mark_at result k ≡ None }
        ensures of { (opening : TableId) → AreOf opening result }
    {
        Marks {
            slots: [
                None, None, None, None, None, None, None, None, None, None, None, None, None, None,
                None, None, None, None,
            ],
        }
    }

    /// Whether the mark of a key is in.
    pub fn has(&self, key: u8) -> bool
        ensures { IsTrue result ↔ IsSome (mark_at self.now key) }
    {
        usize::from(key) < KEYS && self.slots[usize::from(key)].is_some()
    }

    /// Puts in a mark whose key has none in.
    #[tactic(auto, using(crate::proofs::MarkRegisterLemmas::all_put, crate::proofs::MarkRegisterLemmas::others_kept))]
    pub fn put(&mut self, mark: Mark)
        requires { mark_at self.old mark.key ≡ None }
        ensures marks { self.new ≡ slice_set self.old mark.key (Some mark) }
        ensures here { mark_at self.new mark.key ≡ Some mark }
        ensures others { (k : ℕ) → k ≢ mark.key → mark_at self.new k ≡ mark_at self.old k }
        ensures of { AreOf mark.opening self.old → AreOf mark.opening self.new }
    {
        let at = usize::from(mark.key());
        self.slots[at] = Some(mark);
    }

    /// Takes out the mark of a key; `None` exactly where none is in.
    #[tactic(auto, using(crate::proofs::MarkRegisterLemmas::all_taken, crate::proofs::MarkRegisterLemmas::others_kept, crate::proofs::MarkRegisterLemmas::one_of_all))]
    pub fn take(&mut self, key: u8) -> Option<Mark>
        ensures mark { result ≡ mark_at self.old key }
        ensures key { IfSome result (λ m. m.key ≡ key) }
        ensures marks { self.new ≡ slice_set self.old key None }
        ensures gone { mark_at self.new key ≡ None }
        ensures others { (k : ℕ) → k ≢ key → mark_at self.new k ≡ mark_at self.old k }
        ensures opening { (opening : TableId) → AreOf opening self.old → IfSome result (λ m. m.opening ≡ opening) }
        ensures of { (opening : TableId) → AreOf opening self.old → AreOf opening self.new }
    {
        if usize::from(key) < KEYS {
            self.slots[usize::from(key)].take()
        } else {
            None
        }
    }
}
