//! The four kinds of step on the board's word, each by the journal's token. None takes memory.
ghost use Rattle.std.specs.Prelude.{ℕ, ◌≡◌, ◌+◌, ◌<◌, ◌^◌, [], ◌∷◌, ◌++◌, length};
ghost use mathlib.Core.List.{IsPrefix};
ghost use Rattle.rk_model.specs.Lists.{times};
ghost use Rattle.rk_journal.specs.Logs.{noted, Quiet};
ghost use Rattle.rk_journal.specs.JournalRule.{holder, first_key, later_keys};
ghost use Rattle.rk_journal.specs.Tokens.{IsWriter, WritesTo};

use crate::rule::{Adding, Append, Board, FirstKey, Look, NoKey, TakeIn, Token};
use rk_model::Entry;
use std::marker::Brand;

/// Takes in another token: its keys come in front of the journal's, and no entry after what it knew
/// has one of its keys.
pub(crate) fn take_in(board: &Board, token: &mut Token, other: Token)
    requires token { WritesTo board.now.shared.table_id token.old }
    requires other { (other.table_id ≡ board.now.shared.table_id) × (other.me ≡ (holder other.me.0.list other.me.0.keys, [])) }
    ensures same { token.new.table_id ≡ token.old.table_id }
    ensures view { IsWriter token.new token.old.me.0.list (other.me.0.keys ++ token.old.me.0.keys) }
    ensures told { IsPrefix other.me.0.list token.old.me.0.list × ((k : ℕ) → 0 < times k other.me.0.keys → Quiet k other.me.0.list token.old.me.0.list) }
{
    board.shared.join_seat::<TakeIn>(token, other);
    board.shared.load::<Look>(token, 0);
}

/// Gives the journal's first key out to a new token, which knows the whole history.
pub(crate) fn give_out(board: &Board, token: &mut Token) -> Token
    requires { WritesTo board.now.shared.table_id token.old }
    ensures same { (token.new.table_id ≡ token.old.table_id) × (result.table_id ≡ token.old.table_id) }
    ensures view { IsWriter token.new token.old.me.0.list (later_keys token.old.me.0.keys) }
    ensures given { result.me ≡ (holder token.old.me.0.list (first_key token.old.me.0.keys), []) }
{
    board.shared.split_seat::<FirstKey>(token)
}

/// A new token without a key, which knows the whole history.
pub(crate) fn give_front(board: &Board, token: &mut Token) -> Token
    requires { WritesTo board.now.shared.table_id token.old }
    ensures same { (token.new.table_id ≡ token.old.table_id) × (token.new.me ≡ token.old.me) × (result.table_id ≡ token.old.table_id) }
    ensures given { result.me ≡ (holder token.old.me.0.list [], []) }
{
    board.shared.split_seat::<NoKey>(token)
}

/// The history goes on with the entry, under the keys that the journal's token has.
pub(crate) fn add_entry(board: &Board, token: &mut Token, entry: Entry)
    requires token { WritesTo board.now.shared.table_id token.old }
    requires room { length token.old.me.0.list + 1 < 2 ^ 64 }
    ensures same { token.new.table_id ≡ token.old.table_id }
    ensures view { IsWriter token.new (token.old.me.0.list ++ noted entry token.old.me.0.keys ∷ []) token.old.me.0.keys }
{
    add_named::<Brand>(board, token, entry);
}

/// The same for the entry that N names: only a type can tell a step which entry it adds.
fn add_named<N: Adding>(board: &Board, token: &mut Token, entry: Entry)
    requires token { WritesTo board.now.shared.table_id token.old }
    requires room { length token.old.me.0.list + 1 < 2 ^ 64 }
    requires entry { entry ≡ N.entry }
    ensures same { token.new.table_id ≡ token.old.table_id }
    ensures view { IsWriter token.new (token.old.me.0.list ++ noted entry token.old.me.0.keys ∷ []) token.old.me.0.keys }
{
    board.shared.fetch_add::<Append<N>>(token, 0, 1);
}
