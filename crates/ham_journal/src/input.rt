//! What goes into a node, and what it replies.

use ham_frame::{Frame, Frames};
use ham_resend::Asked;
use ham_state::Row;
use ham_syntax::{Act, Call, Counts, Items, Places};
use ham_turns::{DeliverRefusal, Delivered, IssueRefusal, Issued};

/// Calls, in order.
pub type Calls = Items<Call>;

/// What a client, a peer, a feeder or a clock puts into a node.
#[derive(Debug, Drop)]
pub enum Input {
    /// An act to be issued.
    Issue(Act),
    /// A frame of another replica.
    Deliver { from: u8, frame: Frame },
    /// To send again what peers lack.
    Tick,
    /// To take the frames that wait for a peer.
    Collect { peer: u8 },
    /// To look at a counter. The key of a plain counter is 0.
    Show { counter: u8, key: u64 },
    /// To look at the rows of a relation.
    Rows { relation: u8 },
    /// What is known of a request that was made here.
    Verdict { group: u8, number: u32 },
    /// To look at the log.
    Log,
    /// How many calls of each lane are logged.
    Counts,
    /// To look at the calls of the log.
    Record,
    /// To stop for good.
    Stop,
}

/// What an input is replied.
#[derive(Debug, Drop)]
pub enum Reply {
    /// An act was issued, and its turn logged these calls.
    Issued { answer: Issued, logged: Places },
    /// It was refused. Want of memory is told as `NoMemory`.
    NotIssued(IssueRefusal),
    /// A frame was delivered, and its turn logged these calls.
    Delivered { answer: Delivered, logged: Places },
    /// It was refused. Want of memory is told as `NoMemory`.
    NotDelivered(DeliverRefusal),
    /// How many frames a tick sent.
    Ticked { sent: u32 },
    /// The first frames that waited for the peer, up to 64.
    Collected(Frames),
    /// The value of a counter.
    Value(i128),
    /// The rows of a relation.
    Rows(Items<Row>),
    /// What is known of a request.
    Asked(Asked),
    /// The places of the logged calls, in order.
    Log(Places),
    /// How many calls of each lane are logged.
    Counts(Counts),
    /// The logged calls, in order.
    Recorded(Calls),
    /// The node stops by this input.
    Stopping,
    /// It was stopped before.
    Stopped,
    /// Its journal is full: it takes a stop alone.
    Full,
    /// Memory ran out, and the input did no work.
    NoMemory,
}
