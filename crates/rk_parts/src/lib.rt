//! The parts of the running kernel, and what is done on those that are lent.
#![tactic(auto)]

pub mod arrival;
pub mod bearing;
pub mod contribute;
pub mod helping;
pub mod holdings;
pub mod lent;
pub mod parts;
pub mod processors;
pub mod settle;
pub mod standing;
pub mod table;
pub mod threads;
pub mod ticks;
pub mod timers;
