//! The lines of schedules: their grammar, read and printed.
//!
//! It stands on lines and turns. `ham_replay` reads schedules by it, and scripts print theirs.
#![tactic(auto)]

pub mod laws;
mod line;
mod meaning;
mod printer;
mod verb;
mod written;

pub use ham_lines::LineFault;
pub use ham_turns::{Cuts, Event};
pub use line::{Line, Query, is_skipped, read_line};
pub use printer::print_line;
pub use written::Written;
