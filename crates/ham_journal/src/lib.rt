//! A node's inputs, replies and entries, and what a journal of entries means: which core they leave, and which reply each
//! was given. Here stand types, definitions and laws, and no code.
//!
//! It stands on turns. `ham_core` keeps the fold of a journal behind one lock, and what is claimed of a node is claimed of
//! its journal, since who enters what and when no contract can say.
#![tactic(auto)]

pub mod entry;
pub mod input;
pub mod laws;
pub mod limits;

pub use entry::{Entry, Mark};
pub use input::{Calls, Input, Reply};
pub use limits::{MAX_COLLECTED, MAX_ENTRIES, MAX_WAITING};
