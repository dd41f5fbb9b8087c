//! The command `replay OBJECT SCHEDULE`.

ghost use Rattle.ham_cli.specs.Exits.{IsSinkCounted};
ghost use Rattle.ham_cli.specs.PlayAnswers.{AnswersReplay};
ghost use Rattle.ham_cli.specs.Told.{Tells};

use crate::exit::{Exit, exit_of_replay};
use crate::plans::plans_of;
use ham_bytes::Sink;
use ham_replay::replay;
use ham_syntax::Object;
use std::alloc::Global;

/// Writes the text of the run that a schedule makes.
pub(crate) fn put_replay<K: Sink>(
    alloc: Global,
    object: &Object,
    schedule: &[u8],
    out: &mut K,
) -> Exit
    ensures ends { Tells (AnswersReplay object.now schedule.now) (K.taken out.old) (K.taken out.new) result }
    ensures counted { IsSinkCounted (K.faults out.old) (K.faults out.new) result }
{
    exit_of_replay(replay(alloc, object, &plans_of(object), schedule, out))
}
