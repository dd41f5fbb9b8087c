//! What a state of an object is, and steps on it.
//!
//! The value that a state is the machine of: a list of rows and amounts, in order, and what each step does to it. Contracts
//! of everything above speak of this value; the tables that hold it are `ham_content`'s. It stands on syntax alone.
#![tactic(auto)]

pub mod laws;
pub mod pattern;
pub mod row;
pub mod step;
pub mod touch;

pub use pattern::{constants, row_matches};
pub use row::Row;
pub use step::{Net, Step};
pub use touch::last_touch;
