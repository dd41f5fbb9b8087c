//! What was sent on a link, as bytes with the ends of its frames, and frames read back from such bytes, whole or in pieces.
//! It stands on frames alone; worlds keep their links in it.
//!
//! Worlds keep a link as bytes, since that is what is lost, cut and repeated; the frames of a link are found by their ends.
#![tactic(auto)]

mod link;
mod pieces;

pub use link::Link;
pub use pieces::{decode, feed};
