//! The core of a node: a replica, the frames that wait for its peers, and the journal of what was entered. What a lock is to
//! keep stands here, and a door to it without a lock; there is no thread and no link.
//!
//! It stands on replicas and the journal. `ham_node` puts `Guarded` behind a lock; what serves clients and peers knows only
//! of doors, and is tested over `Local`.
#![tactic(auto)]

mod boxes;
pub mod door;
pub mod each;
pub mod guarded;
mod logged;
mod marks;
pub mod seats;
mod waiting;
mod work;

pub use door::{Door, Local, Tally};
pub use guarded::{Guarded, gathered};
pub use ham_journal::{Entry, Input, Mark, Reply};
pub use seats::{Home, Seat, Seats};
