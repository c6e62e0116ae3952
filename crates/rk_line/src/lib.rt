//! The ready queue of a cluster: its threads in their order, each with its priority.
#![tactic(auto)]

mod line;
#[cfg(test)]
mod tests;

pub use line::{Line, Place};
