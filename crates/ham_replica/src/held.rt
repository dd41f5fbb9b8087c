//! What a replica keeps beside its site, and what its parts hand each other.

use ham_buffer::Buffer;
use ham_frame::Ruling;
use ham_lane::{InLane, OutLane};
use ham_resend::{Asks, Rulings};
use ham_state::State;
use ham_syntax::{Act, Place};

/// What a replica keeps beside its site.
#[derive(Drop)]
pub(crate) struct Held {
    pub state: State,
    pub log: Vec<Place>,
    /// By slot, how many calls are logged.
    pub counts: Vec<u32>,
    /// By lane, how many calls are logged.
    pub logged: Vec<u32>,
    /// By lane, the calls that were decided here.
    pub outs: Vec<OutLane>,
    /// By lane, the calls that came and are logged.
    pub ins: Vec<InLane>,
    pub buffer: Buffer,
    pub asks: Asks,
    pub rulings: Rulings,
}

/// How a step of the drain went.
#[derive(Clone, Copy, Debug, PartialEq, Eq)]
pub(crate) enum Next {
    /// A call was logged.
    Logged,
    /// Nothing is ready.
    Settled,
    /// Memory ran out; a call is ready still.
    Stuck,
}

/// A request that comes: from which replica, to which group, and its number there.
#[derive(Clone, Copy, Debug, PartialEq, Eq)]
pub(crate) struct Request {
    pub from: u8,
    pub group: u8,
    pub number: u32,
    pub act: Act,
}

/// A verdict that comes: from which replica, on which request, and what was ruled.
#[derive(Clone, Copy, Debug, PartialEq, Eq)]
pub(crate) struct Reply {
    pub from: u8,
    pub group: u8,
    pub number: u32,
    pub ruling: Ruling,
}
