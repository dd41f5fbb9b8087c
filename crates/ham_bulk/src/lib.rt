//! Schedules made from a number: scripts, and what becomes of them.
//!
//! It stands on worlds and replays: the commands `script` and `bulk` make the same draft, the one to print it, the other to
//! count what became of it.
#![tactic(auto)]

mod counting;
mod draft;
mod drafting;
mod drawing;
pub mod laws;
mod lines;
mod made;
mod reached;
mod round;
mod summary;
mod sweep;
mod tally;
mod writing;

pub use counting::bulk;
pub use drafting::MAX_ROUNDS;
pub use reached::MAX_LINKS;
pub use writing::script;
