//! One line of a schedule, after the one that makes the world.

ghost use Rattle.std.specs.Prelude.{◌≡◌, false, IfOk};
ghost use Rattle.ham_turns.specs.Settings.{setting_of};
ghost use Rattle.ham_replay.specs.Replays as replays;
ghost use Rattle.ham_replay.specs.Ends.{IsLineOutcome};

use crate::asking::ask;
use crate::end::LineRefusal;
use crate::taking::take;
use ham_grammar::{Line, LineFault, is_skipped, read_line};
use ham_lists::{Bytes, NoMemory};
use ham_world::World;
use std::alloc::Global;

/// Takes one line: an event steps the world, a query reads it. The answers are put last, a line each.
#[tactic(auto, unfolding(crate::specs::Replays::line_outcome))]
pub fn play_line(
    alloc: Global,
    world: &mut World,
    line: &[u8],
    text: &mut Bytes,
) -> Result<Option<LineRefusal>, NoMemory>
    requires { world.old.stopped ≡ false }
    ensures { IfOk result (λ refused. IsLineOutcome world.old world.new text.old text.new (replays.line_outcome world.old.object (setting_of world.old.plan) world.old.notes line.now) refused) }
{
    if is_skipped(line) {
        return Ok(None);
    }
    match read_line(alloc, world.object(), line) {
        Ok(Line::Act(event)) => take(alloc, world, &event, text),
        Ok(Line::Ask(query)) => ask(alloc, world, query, text),
        Ok(Line::Replicas(_)) => Ok(Some(LineRefusal::NotALine)),
        Err(LineFault::NoMemory) => Err(NoMemory),
        Err(LineFault::NotALine) => Ok(Some(LineRefusal::NotALine)),
        Err(LineFault::UnknownName) => Ok(Some(LineRefusal::UnknownName)),
        Err(LineFault::BadKey) => Ok(Some(LineRefusal::BadKey)),
    }
}
