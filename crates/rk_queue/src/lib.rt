//! The queues in which threads wait, with the order in which they are served.
#![tactic(auto)]

mod queue;
#[cfg(test)]
mod tests;

pub use queue::ThreadQueue;
