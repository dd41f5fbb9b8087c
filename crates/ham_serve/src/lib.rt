//! What a node tells its clients: lines in, lines out, by any door and any link.
//!
//! It stands on the core's doors and on links. A worker of `ham_workers` calls `serve_client` for each client that comes.
#![tactic(auto)]

mod hearing;
pub mod laws;
mod line;
mod recorded;
mod reply;
mod serve;

pub use line::{MAX_LINE, first_line};
pub use serve::{ClientEnd, Said, Went, serve_client};
