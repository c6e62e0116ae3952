//! The ids and names of the objects of a class.
#![tactic(auto)]

mod ids;
#[cfg(test)]
mod tests;

pub use ids::{IdError, Ids};
