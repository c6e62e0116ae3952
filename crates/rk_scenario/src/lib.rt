//! Reads scenarios from their text.
#![tactic(auto)]

mod draft;
mod errors;
mod generator;
pub mod laws;
mod lines;
mod operands;
mod ops;
mod read;
#[cfg(test)]
mod tests;
mod words;

pub use errors::ScenarioError;
pub use generator::generate;
pub use read::read_scenario;
