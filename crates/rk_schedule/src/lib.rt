//! Schedules: the text of a history is written, line by line, and read.
#![tactic(auto)]

mod directive_lines;
mod ending;
mod errors;
mod forms;
mod judging;
pub mod laws;
mod period_lines;
pub mod pieces;
mod reading;
mod schedule;
#[cfg(test)]
mod tests;
mod tick_lines;
mod words;

pub use errors::ScheduleError;
pub use reading::read_schedule;
pub use schedule::write_schedule;
