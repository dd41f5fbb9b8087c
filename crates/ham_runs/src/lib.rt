//! Runs of several replicas: what a run is, and what is so of every one. Here stand definitions and laws, and no code.
//!
//! It stands on the table of turns and on the laws of coordination: what replicas do that each keep to the table is
//! well-coordinated, whatever is lost, repeated or reordered. The three runs written out show that the premises can be met,
//! the slips that the definitions can't be read otherwise. Worlds, audits and nodes rest on it.
#![tactic(auto)]

pub mod laws;
pub mod story;
