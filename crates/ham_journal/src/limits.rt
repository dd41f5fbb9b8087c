//! The limits of a node.

/// The most frames that wait for a peer. One more is dropped, as a network may.
pub const MAX_WAITING: usize = 1_024;

/// The most frames that a peer's feeder collects at once.
pub const MAX_COLLECTED: usize = 64;

/// The most entries of a journal, but for a stop.
pub const MAX_ENTRIES: usize = 2_000_000;
