use rk_model::{Entry, Why};

/// What a processor's step answers.
#[derive(Clone, Copy, Debug, PartialEq, Eq)]
pub enum Stepped {
    /// It did a directive, or returned from one, and this entry was appended.
    Did(Entry),
    /// It has no directive, for this reason.
    Nothing(Why),
    /// The history has as many entries as its limit, and doesn't end with End.
    Full,
    /// The history ends with End.
    Over,
}

/// What a step of the clock answers.
#[derive(Clone, Copy, Debug, PartialEq, Eq)]
pub enum TickAnswer {
    /// A tick passed, and its entry was appended.
    Ticked,
    /// The run ended at the horizon, and End was appended.
    Ended,
    /// This processor, the lowest-numbered that has a directive, comes first.
    NotYet(u8),
    /// The history has as many entries as its limit, and doesn't end with End.
    Full,
    /// The history ends with End.
    Over,
}
