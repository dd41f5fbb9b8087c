//! Tests of the outside of the program.
#![tactic(auto)]

#[cfg(test)]
mod outside;
