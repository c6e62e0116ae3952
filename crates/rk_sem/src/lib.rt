//! The semaphores of a group: which thread owns each, its count, and the queue of those that wait for
//! it.
#![tactic(auto)]

mod judge;
mod slot;
mod store;
#[cfg(test)]
mod tests;

pub use store::SemStore;
