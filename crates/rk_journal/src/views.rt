//! What the tokens of the board know. These types exist for contracts alone: no value of them is made.
use rk_model::Entry;
use std::collections::LinkedList;

/// An entry, and the keys under which it was appended. It exists for contracts alone.
pub struct Noted {
    pub entry: Entry,
    pub keys: LinkedList<u8>,
}

/// What a token knew when the journal's token took it in. It exists for contracts alone.
pub struct Old {
    /// The beginning of the history that it knew.
    pub list: LinkedList<Noted>,
    /// The keys that it had.
    pub keys: LinkedList<u8>,
}

/// What a token knows. It exists for contracts alone.
pub struct Known {
    /// Whether it is the journal's token.
    pub owns: bool,
    /// A beginning of the history; the whole history for the journal's token.
    pub list: LinkedList<Noted>,
    /// The keys that it has.
    pub keys: LinkedList<u8>,
    /// What it took in, until the next load.
    pub old: Option<Old>,
}
