//! Tests that cross crates, over shelves and sinks in memory: what no file of `examples/tests/` can show.
#![tactic(auto)]

#[cfg(test)]
mod faults;
pub mod fixtures;
#[cfg(test)]
mod meanings;
