//! The auditor: whether recorded logs could have been made by replicas that coordinate well, and the first fault where
//! they could not.
//!
//! It stands on records and on the laws of runs, and plays nothing: a log is accepted where an order of decisions explains
//! it, so that records of real nodes can be audited. The command `audit` calls it.
#![tactic(auto)]

pub mod auditing;
pub mod fault;
pub mod firsts;
pub mod fronts;
pub mod laws;
pub mod needs;
pub mod order;
pub mod positions;
pub mod texts;

pub use auditing::audit;
pub use fault::AuditFault;
pub use ham_records::{AuditText, Log, Logged, Records, read};
pub use texts::fault_text;
