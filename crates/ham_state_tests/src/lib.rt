//! Tests of states.
#![tactic(auto)]

#[cfg(test)]
mod states;
