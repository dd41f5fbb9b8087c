//! Why an event isn't taken.

use ham_lists::NoMemory;
use ham_turns::IssueRefusal;
use thiserror::Error;

/// How many frames may come together in pieces.
pub const MAX_STRETCH: u64 = 64;

/// Why a world doesn't take an event. The first that fits is named.
#[derive(Clone, Copy, Debug, PartialEq, Eq, Drop, Error)]
pub enum StepRefusal {
    /// A replica isn't there, or a link would go from a replica to itself.
    #[error("no such replica")]
    NoSuchReplica,
    /// A frame of that number wasn't sent on the link.
    #[error("no such frame")]
    NoSuchFrame,
    /// The stretch of frames is empty or too long, or the cuts don't ascend within its bytes; or a torn frame has no byte,
    /// or all of them.
    #[error("bad cut")]
    BadCut,
    /// More than `MAX_SENT_FRAMES` frames were sent, on all links together.
    #[error("sent full")]
    SentFull,
    /// The replica refuses the act, and not for want of memory.
    #[error("{0}")]
    Issue(IssueRefusal),
    /// Memory ran out. A first part of the event's turns may stand, and the world takes no more events.
    #[error("out of memory")]
    NoMemory,
}

impl From<NoMemory> for StepRefusal {
    ghost use Rattle.std.specs.Prelude.{◌≡◌};
    ghost use Rattle.ham_world.specs.declared.refusal.StepRefusal.TheVariants as refusals;

    ghost from_gives = { λ _ e. e ≡ refusals.NoMemory };

    fn from(_e: NoMemory) -> StepRefusal {
        StepRefusal::NoMemory
    }
}
