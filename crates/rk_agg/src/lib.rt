//! What threads contribute to each other's priorities.
#![tactic(auto)]

mod aggregates;
#[cfg(test)]
mod tests;

pub use aggregates::{Aggregates, MOST_SHARES, lesser_of};
