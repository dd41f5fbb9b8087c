//! The command `record OBJECT SCHEDULE`.

ghost use Rattle.std.specs.Prelude.{◌≡◌};
ghost use Rattle.ham_cli.specs.Exits.{IsSinkCounted};
ghost use Rattle.ham_cli.specs.RecordAnswers.{AnswersRecord, IsRecordedWell};
ghost use Rattle.ham_cli.specs.Told.{Tells};

use crate::exit::{Exit, exit_of_replay};
use crate::plans::plans_of;
use ham_bytes::Sink;
use ham_record::write_logs;
use ham_syntax::Object;
use std::alloc::Global;

/// Writes the logs of the run that a schedule makes, with the acts of their calls.
pub(crate) fn put_record<K: Sink>(
    alloc: Global,
    object: &Object,
    schedule: &[u8],
    out: &mut K,
) -> Exit
    ensures ends { Tells (AnswersRecord object.now schedule.now) (K.taken out.old) (K.taken out.new) result }
    ensures well { result ≡ Exit.Done → IsRecordedWell object.now schedule.now }
    ensures counted { IsSinkCounted (K.faults out.old) (K.faults out.new) result }
{
    exit_of_replay(write_logs(alloc, object, &plans_of(object), schedule, out))
}
