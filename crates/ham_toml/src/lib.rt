//! Objects in TOML: their reader.
//!
//! The parser of TOML is the library's; here its tables are read as a raw object, or refused by the first key that is
//! unknown, missing or bad. `ham_objfile` calls it for every file that isn't a plain form.
#![tactic(auto)]

pub mod document;
pub mod keys;
mod tables;
mod values;

pub use document::read_document;
pub use keys::{Form, unknown_key_is_least};
