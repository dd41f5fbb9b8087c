//! How the program ends.

ghost use Rattle.std.specs.Prelude.{◌≡◌};
ghost use Rattle.ham_cli.specs.Exits as exits;

use ham_bytes::FetchFault;
use ham_replay::ReplayEnd;

/// The exits, with their numbers.
#[derive(Clone, Copy, Debug, PartialEq, Eq)]
pub enum Exit {
    /// The text was written to its end.
    Done = 0,
    /// The words have none of the shapes; the usage line was written.
    Usage = 1,
    /// The object's file is not taken, which was written.
    ObjectRefused = 2,
    /// A line of the schedule is refused, which was written after the text of the lines before it.
    ScheduleRefused = 3,
    /// The shelf failed, and nothing was written.
    ReadFault = 4,
    /// The sink failed; a front of the text was written.
    WriteFault = 5,
    /// Memory ran out; a front of the text was written.
    NoMemory = 6,
    /// A file is longer than its limit, and nothing was written.
    TooLong = 7,
    /// The derivation is refused, or a claim names no method, which was written.
    DerivationRefused = 8,
    /// The records are refused, which was written.
    AuditRefused = 10,
}

impl Exit {
    ghost use Rattle.ham_cli.specs.Exits.{status_of};

    /// The status that the process ends with.
    pub fn number(self) -> u8
        ensures { result ≡ status_of self }
    {
        self as u8
    }
}

/// How the program ends where a file was not fetched.
pub fn exit_of_fetch(fault: FetchFault) -> Exit
    ensures { result ≡ exits.exit_of_fetch fault }
{
    match fault {
        FetchFault::Failed => Exit::ReadFault,
        FetchFault::TooLong { .. } => Exit::TooLong,
        FetchFault::NoMemory => Exit::NoMemory,
    }
}

/// How the program ends after a replay.
pub(crate) fn exit_of_replay(end: ReplayEnd) -> Exit
    ensures { result ≡ exits.exit_of_replay end }
{
    match end {
        ReplayEnd::Done => Exit::Done,
        ReplayEnd::Refused { .. } => Exit::ScheduleRefused,
        ReplayEnd::WriteFault => Exit::WriteFault,
        ReplayEnd::NoMemory => Exit::NoMemory,
    }
}
