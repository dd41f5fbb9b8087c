//! What a node and its peers say to each other: a link's frames in, and frames out, by any door and any link.
//!
//! It stands on the core's doors and on links. Two workers of `ham_workers` for each peer call `serve_peer` and `feed_peer`.
#![tactic(auto)]

mod feeding;
mod greeting;
mod meeting;
mod serving;

pub use feeding::{FeedEnd, feed_peer};
pub use greeting::Greeting;
pub use meeting::PeerEnd;
pub use serving::serve_peer;
