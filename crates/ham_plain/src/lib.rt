//! Objects in plain form: their reader and their printer.
//!
//! The form that `normal` prints and that the digest of an object is taken of: each object has exactly one. It stands on the
//! text layer and the check; `ham_objfile` chooses between it and TOML, `ham_digest` hashes what it prints.
#![tactic(auto)]

mod draft;
mod keyword;
pub mod line;
pub mod plain;
pub mod printer;
mod spelling;

pub use line::PlainLine;
pub use plain::read_plain;
pub use printer::print_plain;
