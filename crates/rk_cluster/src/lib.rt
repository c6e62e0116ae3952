//! A cluster: its ready queue and the threads of its processors, and how they settle after a change.
#![tactic(auto)]

mod assign;
mod cluster;
mod moves;
#[cfg(test)]
mod tests;

pub use cluster::Cluster;
pub use moves::{Change, Moves};
