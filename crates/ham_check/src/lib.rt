//! Objects as they are written, and their check: the object with its names resolved, or the first fault.
//!
//! Readers of files (`ham_forms` and above) make a `Raw` object, in which names stand for what they name; `check_object`
//! makes the `Object` of it that all other crates take, and nothing else makes one. So that a fault can be shown at its
//! place, it is told by section, entry and part.
#![tactic(auto)]

mod beside;
pub mod check;
mod declared;
mod invariants;
mod parts;
pub mod raw;
mod scope;

pub use check::check_object;
pub use raw::{
    CheckFault, Ill, IllKind, IllPlace, Raw, RawInvariant, RawMethod, RawPart, RawRelation,
    RawTerm, Verb,
};
