//! The loop over the lines.

ghost use Rattle.std.specs.Prelude.{◌≡◌, ◌+◌, ◌-◌, ◌^◌, ◌≤◌, ◌<◌, ◌++◌, false, string_bytes, Some, IfOk, length, slice_get};
ghost use Rattle.ham_bytes.specs.Causes.{Rose};
ghost use Rattle.ham_text.specs.Cuts.{lines_of};
ghost use Rattle.ham_turns.specs.Settings.{setting_of};
ghost use Rattle.ham_laws.specs.Constrained.{IsPlanned};
ghost use Rattle.ham_grammar.specs.Computed.{read_of};
ghost use Rattle.ham_world.specs.Worlds.{Run};
ghost use Rattle.ham_replay.specs.Replays as replays;
ghost use Rattle.ham_replay.specs.Claims.{ArePlans, IsPlayedFaithfully, settings_of};
ghost use Rattle.ham_replay.specs.Ends.{EndsAs, Writes, Puts, Gathers, StopsWith, left};

use crate::end::{LineRefusal, Refusal, ReplayEnd, Stop};
use crate::laws::replays_are_faithful;
use crate::line::play_line;
use crate::refusals::refusal_text;
use ham_bytes::{Gatherer, Sink};
use ham_grammar::{Line, LineFault, is_skipped, read_line};
use ham_lines::{Answer, push_answer};
use ham_lists::Items;
use ham_plan::Plan;
use ham_syntax::Object;
use ham_syntax::limits::MAX_REPLICAS;
use ham_text::{first_line, push_line_end};
use ham_world::World;
use std::alloc::Global;

/// The plans for 1 to 8 replicas.
#[derive(Clone, Copy, Debug)]
pub struct Plans {
    pub at: [Plan; MAX_REPLICAS],
}

/// Writes the text of the one run that the schedule's lines make, up to a refused line and its refusal.
pub fn replay<K: Sink>(
    alloc: Global,
    object: &Object,
    plans: &Plans,
    schedule: &[u8],
    out: &mut K,
) -> ReplayEnd
    requires { ArePlans object.now plans.now.at }
    ensures ends { EndsAs (replays.played object.now (settings_of plans.now.at) schedule.now) result }
    ensures writes { Writes (K.taken out.old) (K.taken out.new) (replays.played object.now (settings_of plans.now.at) schedule.now).text result }
    ensures faithful { IsPlayedFaithfully object.now (settings_of plans.now.at) (replays.played object.now (settings_of plans.now.at) schedule.now) }
    ensures later { K.faults out.old ≤ K.faults out.new }
    ensures cause { result ≡ ReplayEnd.WriteFault → Rose (K.faults out.old) (K.faults out.new) }
{
    replays_are_faithful();
    match play(alloc, object, plans, schedule, out) {
        Ok(None) => ReplayEnd::Done,
        Ok(Some(Refusal { line, why })) => ReplayEnd::Refused { line, why },
        Err(Stop::Sink) => ReplayEnd::WriteFault,
        Err(Stop::Memory) => ReplayEnd::NoMemory,
    }
}

/// Gathers the text, and puts what is left of it at the end.
fn play<K: Sink>(
    alloc: Global,
    object: &Object,
    plans: &Plans,
    schedule: &[u8],
    out: &mut K,
) -> Result<Option<Refusal>, Stop>
    requires { ArePlans object.now plans.now.at }
    ensures end { IfOk result (λ refused. refused ≡ (replays.played object.now (settings_of plans.now.at) schedule.now).refused) }
    ensures text { Puts (K.taken out.old) (K.taken out.new) (replays.played object.now (settings_of plans.now.at) schedule.now).text result }
    ensures cause { StopsWith (K.faults out.old) (K.faults out.new) result }
{
    let mut gatherer = Gatherer::new(alloc)?;
    let refused = play_lines(alloc, object, plans, schedule, &mut gatherer, out)?;
    gatherer.flush(out)?;
    Ok(refused)
}

/// Passes over the lines that are skipped, up to the one that is to make the world.
fn play_lines<K: Sink>(
    alloc: Global,
    object: &Object,
    plans: &Plans,
    schedule: &[u8],
    gatherer: &mut Gatherer,
    out: &mut K,
) -> Result<Option<Refusal>, Stop>
    requires { ArePlans object.now plans.now.at }
    ensures end { IfOk result (λ refused. refused ≡ (replays.played object.now (settings_of plans.now.at) schedule.now).refused) }
    ensures text { Gathers (K.taken out.old) gatherer.old (K.taken out.new) gatherer.new (replays.played object.now (settings_of plans.now.at) schedule.now).text result }
    ensures cause { StopsWith (K.faults out.old) (K.faults out.new) result }
{
    let mut rest = schedule;
    let mut number = 1u64;
    while !rest.is_empty() {
        let (line, after) = first_line(rest);
        if !is_skipped(line) {
            return play_first(alloc, object, plans, number, line, after, gatherer, out);
        }
        rest = after;
        number += 1;
    }
    let refusal = Refusal {
        line: number,
        why: LineRefusal::NotALine,
    };
    refuse(alloc, gatherer, out, refusal)
}

/// The first line that isn't skipped makes the world, and the others are played in it.
fn play_first<K: Sink>(
    alloc: Global,
    object: &Object,
    plans: &Plans,
    number: u64,
    line: &[u8],
    rest: &[u8],
    gatherer: &mut Gatherer,
    out: &mut K,
) -> Result<Option<Refusal>, Stop>
    requires plans { ArePlans object.now plans.now.at }
    requires few { number + length rest.now ≤ 2 ^ 63 }
    ensures end { IfOk result (λ refused. refused ≡ (replays.played_first object.now (settings_of plans.now.at) number (lines_of rest.now) (read_of object.now line.now)).refused) }
    ensures text { Gathers (K.taken out.old) gatherer.old (K.taken out.new) gatherer.new (replays.played_first object.now (settings_of plans.now.at) number (lines_of rest.now) (read_of object.now line.now)).text result }
    ensures cause { StopsWith (K.faults out.old) (K.faults out.new) result }
{
    let refusal = Refusal {
        line: number,
        why: LineRefusal::NotALine,
    };
    match read_line(alloc, object, line) {
        Ok(Line::Replicas(count)) => play_world(
            alloc, object, plans, count, number, rest, gatherer, out,
        ),
        Ok(Line::Act(_)) => refuse(alloc, gatherer, out, refusal),
        Ok(Line::Ask(_)) => refuse(alloc, gatherer, out, refusal),
        Err(LineFault::NoMemory) => Err(Stop::Memory),
        Err(LineFault::NotALine) => refuse(alloc, gatherer, out, refusal),
        Err(LineFault::UnknownName) => refuse(alloc, gatherer, out, refusal),
        Err(LineFault::BadKey) => refuse(alloc, gatherer, out, refusal),
    }
}

/// Makes the world of so many replicas, and plays the lines after that one.
fn play_world<K: Sink>(
    alloc: Global,
    object: &Object,
    plans: &Plans,
    count: u8,
    number: u64,
    rest: &[u8],
    gatherer: &mut Gatherer,
    out: &mut K,
) -> Result<Option<Refusal>, Stop>
    requires plans { ArePlans object.now plans.now.at }
    requires some { 1 ≤ count }
    requires most { count ≤ MAX_REPLICAS }
    requires few { number + length rest.now ≤ 2 ^ 63 }
    ensures end { IfOk result (λ refused. refused ≡ (replays.played_made object.now (settings_of plans.now.at) number count (lines_of rest.now)).refused) }
    ensures text { Gathers (K.taken out.old) gatherer.old (K.taken out.new) gatherer.new (replays.played_made object.now (settings_of plans.now.at) number count (lines_of rest.now)).text result }
    ensures cause { StopsWith (K.faults out.old) (K.faults out.new) result }
{
    let mut world = World::new(alloc, object, plan_for(object, plans, count))?;
    put_answer(alloc, gatherer, out, &Answer::Replicas(count))?;
    play_rest(alloc, &mut world, number + 1, rest, gatherer, out)
}

/// The plan for so many replicas.
pub fn plan_for<'a>(object: &Object, plans: &'a Plans, count: u8) -> &'a Plan
    requires plans { ArePlans object.now plans.now.at }
    requires some { 1 ≤ count }
    requires most { count ≤ MAX_REPLICAS }
    ensures planned { IsPlanned object.now result.now }
    ensures replicas { result.now.replicas ≡ count }
    ensures setting { settings_of plans.now.at count ≡ setting_of result.now }
{
    let _ = object;
    &plans.at[usize::from(count) - 1]
}

/// Plays the lines from the one with this number on.
fn play_rest<K: Sink>(
    alloc: Global,
    world: &mut World,
    first: u64,
    lines: &[u8],
    gatherer: &mut Gatherer,
    out: &mut K,
) -> Result<Option<Refusal>, Stop>
    requires going { world.old.stopped ≡ false }
    requires few { first + length lines.now ≤ 2 ^ 63 + 1 }
    ensures end { IfOk result (λ refused. refused ≡ (left world.old first (lines_of lines.now)).refused) }
    ensures text { Gathers (K.taken out.old) gatherer.old (K.taken out.new) gatherer.new (left world.old first (lines_of lines.now)).text result }
    ensures cause { StopsWith (K.faults out.old) (K.faults out.new) result }
{
    let mut text = Items::new(alloc);
    let mut rest = lines;
    let mut number = first;
    while !rest.is_empty() {
        let (line, after) = first_line(rest);
        text.truncate(0);
        match play_line(alloc, world, line, &mut text)? {
            None => gatherer.write(out, text.items())?,
            Some(why) => {
                let refusal = Refusal { line: number, why };
                return refuse(alloc, gatherer, out, refusal);
            }
        }
        rest = after;
        number += 1;
    }
    put_answer(alloc, gatherer, out, &Answer::End)?;
    Ok(None)
}

/// Sends an answer's line.
fn put_answer<K: Sink>(
    alloc: Global,
    gatherer: &mut Gatherer,
    out: &mut K,
    answer: &Answer,
) -> Result<(), Stop>
    ensures text { Gathers (K.taken out.old) gatherer.old (K.taken out.new) gatherer.new (replays.answer_line answer.now) result }
    ensures cause { StopsWith (K.faults out.old) (K.faults out.new) result }
{
    let mut line = Items::new(alloc);
    push_answer(&mut line, answer)?;
    push_line_end(&mut line)?;
    gatherer.write(out, line.items())?;
    Ok(())
}

/// Sends the line of a refusal, which ends the replay.
fn refuse<K: Sink>(
    alloc: Global,
    gatherer: &mut Gatherer,
    out: &mut K,
    refusal: Refusal,
) -> Result<Option<Refusal>, Stop>
    ensures end { IfOk result (λ refused. refused ≡ Some refusal) }
    ensures text { Gathers (K.taken out.old) gatherer.old (K.taken out.new) gatherer.new (replays.refusal_text refusal) result }
    ensures cause { StopsWith (K.faults out.old) (K.faults out.new) result }
{
    gatherer.write(out, refusal_text(alloc, refusal)?.as_bytes())?;
    Ok(Some(refusal))
}
