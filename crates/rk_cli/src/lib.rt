//! What the command line does: it reads a scenario and writes the schedule of its planned history, or of
//! one that threads take, or it reads a scenario and a schedule and checks the one against the other.
#![tactic(auto)]

mod answer;
mod call;
mod cells;
mod checking;
mod emitting;
#[cfg(test)]
mod kernel_tests;
mod status;
#[cfg(test)]
mod tests;
mod words;
mod workers;

pub use call::{plain_top, top};
