//! Why a line isn't read.

use ham_lists::NoMemory as OutOfMemory;
use thiserror::Error;

/// Why a line isn't read. The first that fits is named.
#[derive(Clone, Copy, Debug, PartialEq, Eq, Drop, Error)]
pub enum LineFault {
    /// The line is outside the grammar.
    #[error("not a line")]
    NotALine,
    /// It names a method, a counter or a relation that the object doesn't have.
    #[error("unknown name")]
    UnknownName,
    /// A key for a plain counter, or none for a keyed one.
    #[error("bad key")]
    BadKey,
    /// Memory ran out.
    #[error("out of memory")]
    NoMemory,
}

impl From<OutOfMemory> for LineFault {
    ghost use Rattle.std.specs.Prelude.{◌≡◌};
    ghost use Rattle.ham_lines.specs.declared.fault.LineFault.TheVariants.{NoMemory};

    ghost from_gives = { λ _ e. e ≡ NoMemory };

    fn from(_e: OutOfMemory) -> LineFault {
        LineFault::NoMemory
    }
}
