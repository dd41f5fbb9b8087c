//! Worlds: replicas of one object, the links between them, and the run that they make.
//!
//! It stands on replicas, on wires and on the laws of runs: what a world has done is a run, and so all that is so of runs is
//! so of it. Replays, records and scripts each play one.
#![tactic(auto)]

mod ask;
mod compare;
mod event;
pub mod laws;
mod look;
pub mod note;
mod open;
mod parts;
pub mod refusal;
mod refuse;
mod send;
mod step;
mod turn;
pub mod world;

pub use ham_turns::{Cuts, Event};
pub use note::{Note, Took};
pub use refusal::{MAX_STRETCH, StepRefusal};
pub use world::World;
