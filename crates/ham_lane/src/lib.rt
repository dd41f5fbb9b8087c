//! Lanes: decided calls, numbered from 1, at the replica that decides them and at the others.
//!
//! It stands on syntax alone. A replica has an `OutLane` for each lane that it decides, with what each peer acknowledged, and
//! an `InLane` for each other.
#![tactic(auto)]

pub mod in_lane;
mod number;
pub mod out_lane;

pub use in_lane::InLane;
pub use out_lane::{AckBeyond, LaneFault, OutLane};
