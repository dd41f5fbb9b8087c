//! What a turn answers, sends and refuses.

use ham_frame::Frame;
use ham_lists::NoMemory;
use ham_meaning::Outcome;
use ham_syntax::Place;
use thiserror::Error;

/// A frame, and the replica to which it goes.
#[derive(Debug, Drop)]
pub struct Out {
    pub to: u8,
    pub frame: Frame,
}

/// What an issue is answered.
#[derive(Clone, Copy, Debug, PartialEq, Eq)]
pub enum Issued {
    /// It was decided here, and this is the place of its call.
    Applied { place: Place },
    /// It is this replica's request of this number to the group.
    Forwarded { group: u8, number: u32 },
    /// It isn't permissible here, for this reason.
    Impermissible(Outcome),
}

/// What a delivery is answered.
#[derive(Clone, Copy, Debug, PartialEq, Eq)]
pub enum Delivered {
    /// A call that is new, or a request that was decided in this turn.
    Fresh,
    /// It came before.
    Repeat,
    /// An acknowledgement, the first verdict on a request, or a farewell.
    Noted,
    /// A request whose predecessor didn't come yet. It is dropped.
    Early,
}

/// What a turn is answered. A torn frame is answered too, though it makes no turn.
#[derive(Clone, Copy, Debug, PartialEq, Eq)]
pub enum What {
    Issued(Issued),
    Delivered(Delivered),
    Torn,
    Ticked,
}

/// Why a replica doesn't take an issue. The first that fits is named.
#[derive(Clone, Copy, Debug, PartialEq, Eq, Drop, Error)]
pub enum IssueRefusal {
    /// The act's method isn't one of the object's.
    #[error("unknown method")]
    UnknownMethod,
    /// The arguments aren't those of the method, or an amount is too large.
    #[error("bad arguments")]
    BadArgs,
    /// The lane is decided here, and has all the calls that it takes.
    #[error("lane full")]
    LaneFull,
    /// The group is led elsewhere, and this replica made all the requests to it that it may make.
    #[error("requests full")]
    RequestsFull,
    /// Memory ran out.
    #[error("out of memory")]
    NoMemory,
}

impl From<NoMemory> for IssueRefusal {
    ghost use Rattle.std.specs.Prelude.{◌≡◌};
    ghost use Rattle.ham_turns.specs.declared.turn.IssueRefusal.TheVariants as refusals;

    ghost from_gives = { λ _ e. e ≡ refusals.NoMemory };

    fn from(_e: NoMemory) -> IssueRefusal {
        IssueRefusal::NoMemory
    }
}

/// Why a replica doesn't take a frame. The first that fits is named.
#[derive(Debug, Drop, Error)]
pub enum DeliverRefusal {
    /// A call of a lane that the sender doesn't decide, an acknowledgement of one that isn't decided here, a request to
    /// a group that isn't led here, or a verdict of one that the sender doesn't lead.
    #[error("not yours")]
    NotYours,
    /// The method isn't one of the object's, or not of that lane or group.
    #[error("bad method")]
    BadMethod,
    /// The arguments aren't those of the method, or an amount is too large.
    #[error("bad arguments")]
    BadArgs,
    /// The call has more or fewer dependency counts than its method.
    #[error("bad dependency counts")]
    BadDeps,
    /// More calls are acknowledged than the lane has.
    #[error("the lane has {len} calls")]
    AckBeyond { len: u32 },
    /// The call, request or verdict is known with other content: as in this frame.
    #[error("another came before")]
    Differs { kept: Frame },
    /// A verdict on a request that wasn't made.
    #[error("{len} requests were made")]
    UnknownRequest { len: u32 },
    /// A link's first frame comes again.
    #[error("a second hello")]
    HelloTwice,
    /// Memory ran out.
    #[error("out of memory")]
    NoMemory,
}

impl From<NoMemory> for DeliverRefusal {
    ghost use Rattle.std.specs.Prelude.{◌≡◌};
    ghost use Rattle.ham_turns.specs.declared.turn.DeliverRefusal.TheVariants as refusals;

    ghost from_gives = { λ _ e. e ≡ refusals.NoMemory };

    fn from(_e: NoMemory) -> DeliverRefusal {
        DeliverRefusal::NoMemory
    }
}
