//! What is noted of a turn.

use ham_syntax::{Act, Items, Place};
use ham_turns::What;

/// What a replica took in. Of a frame: the replica that sent it, and the so many-th of the link it is, from 1.
#[derive(Clone, Copy, Debug, PartialEq, Eq)]
pub enum Took {
    Act(Act),
    Frame { from: u8, frame: u32 },
    Tick,
}

/// A turn of a replica, or a torn frame: what came in, its answer, the calls logged, in order, and how many frames it sent.
#[derive(Debug, Drop)]
pub struct Note {
    pub replica: u8,
    pub took: Took,
    pub what: What,
    pub logged: Items<Place>,
    pub sent: u32,
}
