//! What the rate-monotonic manager does to its periods: when their jobs start and end, and what is
//! counted of those that ended.
#![tactic(auto)]

mod period;
mod phase;
mod slot;
mod stats;
mod store;
#[cfg(test)]
mod tests;

pub use period::Passed;
pub use store::PeriodStore;
