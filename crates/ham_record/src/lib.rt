//! Records of runs: the logs of the run that a schedule makes, with the acts of their calls, as a text for the auditor.
//!
//! It stands on replays and on the auditor, whose definition finds no fault in what it writes. The command `record` calls it.
#![tactic(auto)]

mod logs;
mod running;
mod written;

pub use running::Halt;
pub use written::{recorded, write_logs};
