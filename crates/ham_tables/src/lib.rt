//! The plan that the rules derive from an object, and its tables.
//!
//! It stands on the rules and the laws: what isn't derived to commute conflicts, and what isn't derived to move depends.
//! Every command that runs replicas asks it for the plan, and `tables` prints it.
#![tactic(auto)]

pub mod derived;
mod deriver;
pub mod laws;
mod lines;
pub mod tables;

pub use derived::{Derived, plan_of};
pub use tables::print_tables;
