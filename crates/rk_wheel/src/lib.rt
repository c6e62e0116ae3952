//! The armed timers of a cluster, in the order in which they were armed.
#![tactic(auto)]

#[cfg(test)]
mod tests;
mod wheel;

pub use wheel::{MOST_TIMERS, Wheel};
