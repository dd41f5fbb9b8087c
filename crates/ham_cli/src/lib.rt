//! The top call: what the words of the command line ask, done over a shelf and a sink. Each command is a function of an
//! object, of the bytes of the file beside it, and of what is asked; one place fetches these, and one puts the answer.
//!
//! It stands on all that has a command; the program calls `run`, and the clauses of `run` are what the system promises.
#![tactic(auto)]

mod answer;
mod audits;
mod bulks;
mod checks;
mod command;
mod derives;
mod examples;
mod exit;
pub mod laws;
mod named;
mod normals;
mod plans;
mod records;
mod refusal;
mod replays;
mod tabulates;
mod top;
mod writes;

pub use command::are_text;
pub use exit::{Exit, exit_of_fetch};
pub use top::{put_usage, refuse_object, run};
