//! What the partition manager does to its partitions: memory that is divided into buffers of one
//! size, which are taken and returned.
#![tactic(auto)]

mod partition;
mod slot;
mod store;
#[cfg(test)]
mod tests;

pub use partition::refusal;
pub use store::PartitionStore;
