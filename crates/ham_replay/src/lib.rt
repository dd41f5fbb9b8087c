//! The replay of a schedule: the text of the one run that its lines make.
//!
//! It stands on worlds and the grammar; the command `replay` calls it, and records and scripts are said by the run that it
//! makes.
#![tactic(auto)]

mod asking;
mod end;
pub mod laws;
pub mod line;
mod play;
mod refusals;
mod taking;

pub use asking::compared;
pub use end::{LineRefusal, Refusal, ReplayEnd};
pub use ham_grammar::{Line, LineFault, Query, print_line, read_line};
pub use play::{Plans, plan_for, replay};
pub use refusals::{reason_of, refusal_text};
