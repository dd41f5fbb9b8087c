//! Recorded logs, and their text: what replicas logged, gathered to be audited.
//!
//! It stands on the text layer alone, since records come from whoever kept logs. `ham_record` and nodes write them,
//! `ham_audit` reads them.
#![tactic(auto)]

mod draft;
pub mod laws;
mod line;
mod reader;
pub mod records;
pub mod writer;

pub use reader::{AuditText, read};
pub use records::{Log, Logged, Records};
pub use writer::{push_end, push_logged, push_opening, push_replica};
