//! The objects of a class in a group: which indices are of the group, and a slab that has a place for
//! each of them.
#![tactic(auto)]

mod places;
#[cfg(test)]
mod tests;

pub use places::{GROUPS, PLACES, Places};
