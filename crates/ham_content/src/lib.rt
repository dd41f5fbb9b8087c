//! The content of a state in hash tables: rows and amounts, and rows found by what stands in some of their columns.
//!
//! It holds a `ham_steps` content in hash tables, for `ham_watch` and `ham_state`: a row is found at once, and rows that a
//! pattern with `_` matches are found by the columns that it binds. No order of a table is seen from above.
#![tactic(auto)]

pub mod columns;
pub mod search;
pub mod seats;
pub mod sieve;
pub mod sieves;
pub mod sorted;
pub mod tables;
pub mod tally;

pub use search::RowTest;
pub use sieve::Sieve;
pub use tables::{FactKey, Spot};
