//! The parts of the groups of objects, and what is done on those that are lent.
#![tactic(auto)]

pub mod barriers;
pub mod group;
pub mod partitions;
pub mod periods;
pub mod queues;
pub mod semaphores;
