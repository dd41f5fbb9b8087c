//! The workers of a node: who has which port, what each does until the node is stopped, and how they run beside each other.
//!
//! It stands on the node's crates and starts the threads, alone of all. `ham_node_cli` calls `run_replica`.
#![tactic(auto)]

mod base;
mod duties;
mod opening;
mod others;
mod run;
mod running;
mod worker;

pub use base::{Base, CLIENTS, MAX_BASE, MIN_BASE};
pub use duties::Duty;
pub use others::Peer;
pub use run::{ReplicaEnd, run_replica};
pub use running::{MAX_SEATS, work};
pub use worker::{Ended, Job, Task, Worker};
