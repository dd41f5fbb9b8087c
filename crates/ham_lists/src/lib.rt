//! Lists that grow at their end, want of memory, and what lists in place are.
//!
//! Every crate stands on it: `Items` is the list that can refuse to grow, so that want of memory is an answer and no crash,
//! and `NoMemory` is that answer. Lists in place have a fixed room; what their spare places hold is said here once, for
//! names, terms, columns, rows and acts.
#![tactic(auto)]

pub mod list;

pub use list::{Bytes, Items, NoMemory, Word};
