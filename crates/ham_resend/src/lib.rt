//! Requests made with their verdicts, rulings given, and what is due to be sent again.
//!
//! It stands on frames and lanes. A replica keeps here what it asked of leaders and what it ruled on for others, and sends
//! anew what isn't settled.
#![tactic(auto)]

pub mod asks;
pub mod due;
pub mod rulings;

pub use asks::{Ask, AskFault, Asked, Asks, Refused, Told, VerdictFault};
pub use due::due_calls;
pub use rulings::Rulings;
