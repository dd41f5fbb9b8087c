//! The command `node`: one replica of the plan that the rules derive, over TCP, until a client stops it. It stands beside
//! the commands that end by themselves, whose exits and texts it shares, since it alone may wait for ever.
//!
//! The program calls `run_node`.
#![tactic(auto)]

mod node;
mod words;

pub use node::{NodeEnd, run_node};
