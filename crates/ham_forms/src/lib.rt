//! What both forms of object files share: faults, and what words stand for.
//!
//! It stands on the check, whose raw objects the forms are texts of, and below both forms: a fault of a file is one type,
//! whichever form it had.
#![tactic(auto)]

pub mod fault;
pub mod words;

pub use fault::{FileFault, Unread, bad, missing, unknown};
pub use words::{
    InvariantKind, read_invariant_kind, read_keyed, read_kind, read_limit, read_term, read_verb,
};
