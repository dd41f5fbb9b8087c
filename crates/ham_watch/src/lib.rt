//! What a state keeps beside its content: for each invariant how many rows stand at each key, and which keys break it.
//!
//! For `ham_state`, which keeps one watch for each invariant beside the content, so that whether an invariant holds is known
//! without a look at other rows than those that changed.
#![tactic(auto)]

pub mod changes;
pub mod matching;
pub mod opened;
pub mod reference;
pub mod room;
pub mod unique;
pub mod watch;
pub mod watches;

pub use watch::Watch;
