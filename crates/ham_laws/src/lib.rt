//! The laws of coordination: executions, plans that are sound for an object, and what is true of every execution that is
//! well-coordinated under such a plan. Each law is the contract of a function with an empty body.
//!
//! It stands on the meaning and on plans, and says why the whole coordinates, for every object and every sound plan. The laws
//! on toys beside them show that no premise can be left out. `ham_tables` shows the premises of derived plans, `ham_runs` and
//! `ham_audit` rest on the laws.
#![tactic(auto)]

pub mod bank;
pub mod counterexamples;
pub mod laws;
pub mod moves;
pub mod turns;
