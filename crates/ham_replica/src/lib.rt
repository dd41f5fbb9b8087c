//! A replica and its turns.
//!
//! One replica of any object under any plan: `issue`, `deliver` and `tick` take its turns as the table says, over lanes,
//! buffer and requests. Worlds play several of them, and a node keeps one.
#![tactic(auto)]

mod begin;
mod decide;
mod deliver;
mod drain;
mod held;
mod issue;
mod look;
mod refuse;
pub mod replica;
mod request;
mod tick;

pub use ham_site::{Outs, Parts, Turn};
pub use ham_turns::{DeliverRefusal, Delivered, IssueRefusal, Issued, Out};
pub use replica::Replica;
