//! A replica's site: its object, its plan with tables of it, and which replica it is; and the frames that its turns send.
//!
//! What of a replica never changes, made once when it starts, so that no plan is asked on the path of an event. It stands on
//! turns; replicas and the auditor stand on it.
#![tactic(auto)]

pub mod out;
pub mod site;
mod tables;

pub use out::{Outs, Parts, Turn, room_for_one, with_frame};
pub use site::Site;
