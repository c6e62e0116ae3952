//! What the event manager does to sets of events, and the barrier manager to its barriers.
#![tactic(auto)]

mod events;
mod slot;
mod store;
#[cfg(test)]
mod tests;

pub use events::receive;
pub use store::BarrierStore;
