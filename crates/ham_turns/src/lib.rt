//! The table of turns: what a replica answers, keeps, sends and refuses. Here stand its types and its definitions, and
//! no code: the replica is proved to turn by it, and the laws of runs speak of it.
//!
//! It stands on frames, meaning and plans. `ham_replica` is proved to turn by this table and `ham_runs` proves what follows
//! from it, so that neither stands on the other.
#![tactic(auto)]

pub mod event;
pub mod laws;
pub mod turn;

pub use event::{Cuts, Event};
pub use turn::{DeliverRefusal, Delivered, IssueRefusal, Issued, Out, What};
