//! What the directives do to the parts of the running kernel: the next action of a thread, how a
//! caller goes on after its answer, and how waits and the jobs of periods end.
#![tactic(auto)]

pub mod actions;
mod barriers;
mod chains;
mod events;
mod objects;
pub mod outcomes;
mod partitions;
pub mod periods;
mod semaphores;
mod tasks;
pub mod waits;
