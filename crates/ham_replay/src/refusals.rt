//! Refused lines and their texts.

ghost use Rattle.std.specs.Prelude.{◌≡◌, false, string_bytes, IfOk, OnOk};
ghost use Rattle.ham_replay.specs.Replays as replays;
ghost use Rattle.ham_replay.specs.Ends.{is_memory};

use crate::end::{LineRefusal, Refusal};
use ham_lists::NoMemory;
use ham_turns::IssueRefusal;
use ham_world::StepRefusal;
use std::alloc::{AllocError, Global};

/// The line of a refusal.
pub fn refusal_text(alloc: Global, refusal: Refusal) -> Result<String, AllocError>
    ensures { IfOk result (λ s. string_bytes s ≡ replays.refusal_text refusal) }
{
    let Refusal { line, why } = refusal;
    let why = reason_text(why);
    format!(in alloc; "refused line {line}: {why}\n")
}

fn reason_text(why: LineRefusal) -> &'static str
    ensures { result.now ≡ replays.reason_text why }
{
    match why {
        LineRefusal::NotALine => "not a line",
        LineRefusal::UnknownName => "unknown name",
        LineRefusal::BadKey => "bad key",
        LineRefusal::NoSuchReplica => "no such replica",
        LineRefusal::NoSuchFrame => "no such frame",
        LineRefusal::BadCut => "bad cut",
        LineRefusal::SentFull => "sent full",
        LineRefusal::BadArguments => "bad arguments",
        LineRefusal::LaneFull => "lane full",
        LineRefusal::RequestsFull => "requests full",
    }
}

/// The reason for which a line is refused whose event isn't taken, unless memory ran out.
pub fn reason_of(refusal: StepRefusal) -> Result<LineRefusal, NoMemory>
    ensures reason { IfOk result (λ why. why ≡ replays.reason_of refusal) }
    ensures other { OnOk result (is_memory refusal ≡ false) }
{
    match refusal {
        StepRefusal::NoSuchReplica => Ok(LineRefusal::NoSuchReplica),
        StepRefusal::NoSuchFrame => Ok(LineRefusal::NoSuchFrame),
        StepRefusal::BadCut => Ok(LineRefusal::BadCut),
        StepRefusal::SentFull => Ok(LineRefusal::SentFull),
        StepRefusal::Issue(refusal) => reason_of_issue(refusal),
        StepRefusal::NoMemory => Err(NoMemory),
    }
}

/// The reason of a refused issue, unless memory ran out.
fn reason_of_issue(refusal: IssueRefusal) -> Result<LineRefusal, NoMemory>
    ensures { IfOk result (λ why. why ≡ replays.reason_of_issue refusal) }
{
    match refusal {
        IssueRefusal::UnknownMethod => Ok(LineRefusal::UnknownName),
        IssueRefusal::BadArgs => Ok(LineRefusal::BadArguments),
        IssueRefusal::LaneFull => Ok(LineRefusal::LaneFull),
        IssueRefusal::RequestsFull => Ok(LineRefusal::RequestsFull),
        IssueRefusal::NoMemory => Err(NoMemory),
    }
}
