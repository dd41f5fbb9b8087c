//! Faults of records.

use ham_lists::NoMemory as OutOfMemory;
use ham_meaning::Outcome;
use ham_syntax::Place;

/// Why records are refused: the first fault, by the replica and the index in its log, both from 1.
#[derive(Clone, Copy, Debug, PartialEq, Eq, Drop)]
pub enum AuditFault {
    /// The lane isn't in the plan or not the method's, or the number is none that a lane has.
    BadPlace {
        replica: u8,
        index: u32,
    },
    /// The place stands earlier in this log.
    Twice {
        replica: u8,
        index: u32,
    },
    /// The deciding replica's log lacks the place.
    NotDecided {
        replica: u8,
        index: u32,
    },
    /// The deciding replica's first call of that place has another act.
    Differs {
        replica: u8,
        index: u32,
    },
    /// The call is decided here, and its number isn't the next of its lane.
    Gap {
        replica: u8,
        index: u32,
    },
    /// The order of decision stops before this call, which its replica decided.
    Cycle {
        replica: u8,
        index: u32,
    },
    /// The call wasn't permissible where it was decided.
    Impermissible {
        replica: u8,
        index: u32,
        outcome: Outcome,
    },
    /// A call that this one needs doesn't stand before it.
    NeedLate {
        replica: u8,
        index: u32,
        need: Place,
    },
    NoMemory,
}

impl From<OutOfMemory> for AuditFault {
    ghost use Rattle.std.specs.Prelude.{◌≡◌};
    ghost use Rattle.ham_audit.specs.declared.fault.AuditFault.TheVariants.{NoMemory};

    ghost from_gives = { λ _ e. e ≡ NoMemory };

    fn from(_e: OutOfMemory) -> AuditFault {
        AuditFault::NoMemory
    }
}
