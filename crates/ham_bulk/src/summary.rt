//! What became of a script.

ghost use Rattle.std.specs.Prelude.{◌≡◌, ◌+◌, ◌≤◌, ◌++◌, false, codes, OnOk};
ghost use Rattle.ham_turns.specs.Settings.{IsReplica, setting_of};
ghost use Rattle.ham_world.specs.Worlds.{Run};
ghost use Rattle.ham_bulk.specs.Summaries as summaries;

use crate::tally::{Sort, frames_sent};
use ham_lines::push_answer;
use ham_lists::{Bytes, NoMemory};
use ham_replay::compared;
use ham_text::{push_line_end, push_number};
use ham_world::{Note, World};

/// Puts the summary of a run last.
pub(crate) fn push_summary(text: &mut Bytes, world: &World) -> Result<(), NoMemory>
    requires { world.now.stopped ≡ false }
    ensures { OnOk result (text.new ≡ text.old ++ summaries.summary world.now.object (setting_of world.now.plan) world.now.notes) }
{
    push_turns(text, world.notes())?;
    push_logged(text, world)?;
    push_compared(text, world)?;
    push_end(text)
}

fn push_end(text: &mut Bytes) -> Result<(), NoMemory>
    ensures { OnOk result (text.new ≡ text.old ++ summaries.end_line) }
{
    text.extend(b"end\n")
}

/// Puts a word and a number last.
pub(crate) fn push_count(text: &mut Bytes, word: &[u8], count: u64) -> Result<(), NoMemory>
    ensures { OnOk result (text.new ≡ text.old ++ summaries.worded word.now count) }
{
    text.extend(word)?;
    push_number(text, count)
}

/// Puts how many turns there are of each sort, and how many frames they sent.
fn push_turns(text: &mut Bytes, notes: &[Note]) -> Result<(), NoMemory>
    ensures { OnOk result (text.new ≡ text.old ++ summaries.turn_lines notes.now) }
{
    push_issues(text, notes)?;
    push_deliveries(text, notes)?;
    push_others(text, notes)
}

/// Puts a word, and how many of the turns are of the sort.
fn push_sort(text: &mut Bytes, word: &[u8], sort: Sort, notes: &[Note]) -> Result<(), NoMemory>
    ensures { OnOk result (text.new ≡ text.old ++ summaries.tallied word.now sort notes.now) }
{
    push_count(text, word, sort.count(notes))
}

fn push_issues(text: &mut Bytes, notes: &[Note]) -> Result<(), NoMemory>
    ensures { OnOk result (text.new ≡ text.old ++ summaries.issues_line notes.now) }
{
    push_sort(text, b"issues", Sort::Issues, notes)?;
    push_sort(text, b" applied", Sort::Applied, notes)?;
    push_sort(text, b" forwarded", Sort::Forwarded, notes)?;
    push_sort(text, b" impermissible", Sort::Impermissible, notes)?;
    push_line_end(text)
}

fn push_deliveries(text: &mut Bytes, notes: &[Note]) -> Result<(), NoMemory>
    ensures { OnOk result (text.new ≡ text.old ++ summaries.deliveries_line notes.now) }
{
    push_sort(text, b"deliveries", Sort::Deliveries, notes)?;
    push_sort(text, b" fresh", Sort::Fresh, notes)?;
    push_sort(text, b" repeat", Sort::Repeat, notes)?;
    push_sort(text, b" noted", Sort::Noted, notes)?;
    push_sort(text, b" early", Sort::Early, notes)?;
    push_line_end(text)
}

fn push_others(text: &mut Bytes, notes: &[Note]) -> Result<(), NoMemory>
    ensures { OnOk result (text.new ≡ text.old ++ summaries.other_lines notes.now) }
{
    push_sort(text, b"ticks", Sort::Ticks, notes)?;
    push_line_end(text)?;
    let Some(sent) = frames_sent(notes) else {
        return Err(NoMemory);
    };
    push_count(text, b"sent", sent)?;
    push_line_end(text)
}

/// Puts a line for each replica last: how many calls it logged.
fn push_logged(text: &mut Bytes, world: &World) -> Result<(), NoMemory>
    requires { world.now.stopped ≡ false }
    ensures { OnOk result (text.new ≡ text.old ++ summaries.logged_lines (setting_of world.now.plan) world.now.notes) }
{
    for before in 0..world.replicas() {
        push_logged_at(text, world, before + 1)?;
    }
    Ok(())
}

fn push_logged_at(text: &mut Bytes, world: &World, replica: u8) -> Result<(), NoMemory>
    requires going { world.now.stopped ≡ false }
    requires replica { IsReplica (setting_of world.now.plan) replica }
    ensures { OnOk result (text.new ≡ text.old ++ summaries.logged_line world.now.notes replica) }
{
    push_count(text, b"replica", u64::from(replica))?;
    push_count(text, b" logged", world.log(replica).len() as u64)?;
    push_line_end(text)
}

/// Puts a line for each replica but the first last: how it compares with the first.
fn push_compared(text: &mut Bytes, world: &World) -> Result<(), NoMemory>
    requires { world.now.stopped ≡ false }
    ensures { OnOk result (text.new ≡ text.old ++ summaries.compared_lines world.now.object (setting_of world.now.plan) world.now.notes) }
{
    let _planned = world.object();
    for before in 1..world.replicas() {
        push_compared_with(text, world, before + 1)?;
    }
    Ok(())
}

fn push_compared_with(text: &mut Bytes, world: &World, other: u8) -> Result<(), NoMemory>
    requires going { world.now.stopped ≡ false }
    requires other { IsReplica (setting_of world.now.plan) other }
    ensures { OnOk result (text.new ≡ text.old ++ summaries.compared_line world.now.object (setting_of world.now.plan) world.now.notes other) }
{
    push_count(text, b"compare 1", u64::from(other))?;
    text.push(b' ')?;
    push_answer(text, &compared(world, 1, other))?;
    push_line_end(text)
}
