//! A node with a lock: the door that its workers share, how its feeders sleep until a frame waits, and its ticker.
//!
//! It stands on the core and on links. Workers (`ham_workers`) enter through it; which state an entry met under the lock no
//! contract can say, so that all else of a node stands in crates without a lock.
#![tactic(auto)]

mod locked;
mod ticker;

pub use locked::{Bells, Locked, Waiter};
pub use ticker::beat;
