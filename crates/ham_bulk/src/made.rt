//! Texts that were made, and how they are put.

ghost use Rattle.std.specs.Prelude.{◌≡◌, ◌≤◌, ◌++◌, None, Some, IfOk, IsOk};
ghost use Rattle.ham_bytes.specs.Causes.{Rose};
ghost use Rattle.ham_replay.specs.Replays.{Played};
ghost use Rattle.ham_replay.specs.Ends.{EndsAs, Writes};
ghost use Rattle.ham_bulk.specs.ScriptTexts as texts;
ghost use Rattle.ham_bulk.specs.Summaries as summaries;
ghost use Rattle.ham_bulk.specs.Made.{IsMade};

use ham_bytes::{Sink, SinkFault, put_all};
use ham_lists::{Bytes, NoMemory};
use ham_replay::{Refusal, ReplayEnd, reason_of, refusal_text};
use ham_turns::Event;
use ham_world::StepRefusal;
use std::alloc::Global;

/// A text, and the refused line with which it ends, if one was refused.
#[derive(Drop)]
pub struct Made {
    pub text: Bytes,
    pub refused: Option<Refusal>,
}

impl Made {
    /// The text with the line of a refusal last: the one after those of the events that were taken.
    pub(crate) fn cut(
        alloc: Global,
        mut text: Bytes,
        events: &[Event],
        why: StepRefusal,
    ) -> Result<Made, NoMemory>
        ensures text { IfOk result (λ m. m.text ≡ text ++ texts.refused_after events.now why) }
        ensures refused { IfOk result (λ m. m.refused ≡ Some (texts.refused_line events.now why)) }
    {
        let refusal = Refusal {
            line: events.len() as u64 + 2,
            why: reason_of(why)?,
        };
        text.extend(refusal_text(alloc, refusal)?.as_bytes())?;
        Ok(Made {
            text,
            refused: Some(refusal),
        })
    }
}

/// Puts a text where there was memory to make it.
pub(crate) fn put<K: Sink>(made: Result<Made, NoMemory>, out: &mut K) -> ReplayEnd
    ensures ends { (p : Played) → IfOk made (IsMade p) → EndsAs p result }
    ensures writes { (p : Played) → IfOk made (IsMade p) → Writes (K.taken out.old) (K.taken out.new) p.text result }
    ensures made { result ≡ ReplayEnd.Done → IsOk made }
    ensures later { K.faults out.old ≤ K.faults out.new }
    ensures cause { result ≡ ReplayEnd.WriteFault → Rose (K.faults out.old) (K.faults out.new) }
{
    match made {
        Ok(Made { text, refused }) => match put_all(out, text.items()) {
            Ok(()) => end_of(refused),
            Err(SinkFault) => ReplayEnd::WriteFault,
        },
        Err(NoMemory) => ReplayEnd::NoMemory,
    }
}

fn end_of(refused: Option<Refusal>) -> ReplayEnd
    ensures { result ≡ summaries.end_of refused }
{
    match refused {
        None => ReplayEnd::Done,
        Some(Refusal { line, why }) => ReplayEnd::Refused { line, why },
    }
}
