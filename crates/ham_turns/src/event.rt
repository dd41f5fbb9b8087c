//! What may happen to replicas and to the links between them.

use ham_lists::Items;
use ham_syntax::Act;

/// Where a stretch of frames is cut into pieces: how many bytes come before each cut.
pub type Cuts = Items<u64>;

/// An event. Replicas count from 1, and so do the frames of a link; a number that isn't there is refused.
#[derive(Debug, Drop)]
pub enum Event {
    /// A client issues an act at a replica.
    Issue {
        replica: u64,
        act: Act,
    },
    /// A frame of a link comes in one piece.
    Deliver {
        from: u64,
        to: u64,
        frame: u64,
    },
    /// Frames of a link come joined, and cut at the cuts.
    Pieces {
        from: u64,
        to: u64,
        first: u64,
        last: u64,
        cuts: Cuts,
    },
    /// The first bytes of a frame come, and the link breaks.
    Torn {
        from: u64,
        to: u64,
        frame: u64,
        bytes: u64,
    },
    /// A replica sends again what is due.
    Tick {
        replica: u64,
    },
}
