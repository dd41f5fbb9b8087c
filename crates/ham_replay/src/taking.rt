//! Events: each steps the world, and each turn that it makes is answered by a line.

ghost use Rattle.std.specs.Prelude.{◌≡◌, ◌+◌, ◌-◌, ◌≤◌, ◌++◌, [], length, map, drop, IfOk, OnOk, false};
ghost use Rattle.ham_turns.specs.Settings.{setting_of};
ghost use Rattle.ham_lines.specs.Texts.{answer_text};
ghost use Rattle.ham_replay.specs.Replays as replays;
ghost use Rattle.ham_replay.specs.Ends.{IsLineOutcome};

use crate::end::LineRefusal;
use crate::refusals::reason_of;
use ham_lines::{Answer, push_answer, push_delivered, push_issued};
use ham_lists::{Bytes, NoMemory};
use ham_text::push_line_end;
use ham_turns::{Event, What};
use ham_world::{Note, World};
use std::alloc::Global;

/// Takes an event, and answers its turns.
#[tactic(auto, unfolding(crate::specs::Replays::event_outcome))]
pub(crate) fn take(
    alloc: Global,
    world: &mut World,
    event: &Event,
    text: &mut Bytes,
) -> Result<Option<LineRefusal>, NoMemory>
    ensures { IfOk result (λ refused. IsLineOutcome world.old world.new text.old text.new (replays.event_outcome world.old.object (setting_of world.old.plan) world.old.notes event.now) refused) }
{
    match world.step(alloc, event) {
        Ok(count) => {
            push_notes(text, newest(world.notes(), count))?;
            Ok(None)
        }
        Err(why) => Ok(Some(reason_of(why)?)),
    }
}

/// The last so many notes.
fn newest(notes: &[Note], count: usize) -> &[Note]
    requires { count ≤ length notes.now }
    ensures { result.now ≡ drop (length notes.now - count) notes.now }
{
    &notes[notes.len() - count..]
}

/// Puts the answers of turns last, a line each.
fn push_notes(text: &mut Bytes, notes: &[Note]) -> Result<(), NoMemory>
    ensures { OnOk result (text.new ≡ text.old ++ replays.answer_lines (map replays.answer_of notes.now)) }
{
    for note in notes {
        push_note(text, note)?;
    }
    Ok(())
}

fn push_note(text: &mut Bytes, note: &Note) -> Result<(), NoMemory>
    ensures { OnOk result (text.new ≡ text.old ++ replays.answer_line (replays.answer_of note.now)) }
{
    push_told(text, note)?;
    push_line_end(text)
}

fn push_told(text: &mut Bytes, note: &Note) -> Result<(), NoMemory>
    ensures { OnOk result (text.new ≡ text.old ++ answer_text (replays.answer_of note.now)) }
{
    match note.what {
        What::Issued(answer) => push_issued(text, answer, note.logged.items()),
        What::Delivered(answer) => push_delivered(text, answer, note.logged.items()),
        What::Torn => push_answer(text, &Answer::Torn),
        What::Ticked => push_answer(text, &Answer::Sent(u64::from(note.sent))),
    }
}
