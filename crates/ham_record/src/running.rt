//! The run of a schedule, whose text isn't kept.

ghost use Rattle.std.specs.Prelude.{◌≡◌, ◌+◌, ◌^◌, ◌≤◌, ◌<◌, false, length};
ghost use Rattle.ham_text.specs.Cuts.{lines_of};
ghost use Rattle.ham_grammar.specs.Computed.{read_of};
ghost use Rattle.ham_replay.specs.Replays as replays;
ghost use Rattle.ham_replay.specs.Claims.{ArePlans, settings_of};
ghost use Rattle.ham_replay.specs.Ends.{left};
ghost use Rattle.ham_record.specs.Recorded.{MakesWorld, PlaysRest};

use ham_grammar::{Line, LineFault, is_skipped, read_line};
use ham_lists::{Items, NoMemory as OutOfMemory};
use ham_replay::line::play_line;
use ham_replay::{LineRefusal, Plans, Refusal, plan_for};
use ham_syntax::Object;
use ham_syntax::limits::MAX_REPLICAS;
use ham_text::first_line;
use ham_world::World;
use std::alloc::Global;

/// Why a schedule isn't run to its end.
#[derive(Clone, Copy, Debug, PartialEq, Eq, Drop)]
pub enum Halt {
    /// The first line that is refused.
    Refused(Refusal),
    NoMemory,
}

impl From<OutOfMemory> for Halt {
    ghost use Rattle.std.specs.Prelude.{◌≡◌};
    ghost use Rattle.ham_record.specs.declared.running.Halt.TheVariants.{NoMemory};

    ghost from_gives = { λ _ e. e ≡ NoMemory };

    fn from(_e: OutOfMemory) -> Halt {
        Halt::NoMemory
    }
}

/// The world that the schedule's lines make, or its first refused line. Lines that are skipped come to nothing; the first
/// of the others makes the world.
pub(crate) fn run(
    alloc: Global,
    object: &Object,
    plans: &Plans,
    schedule: &[u8],
) -> Result<World, Halt>
    requires { ArePlans object.now plans.now.at }
    ensures { MakesWorld object.now (settings_of plans.now.at) (replays.played object.now (settings_of plans.now.at) schedule.now) result }
{
    let mut rest = schedule;
    let mut number = 1u64;
    while !rest.is_empty() {
        let (line, after) = first_line(rest);
        if !is_skipped(line) {
            return run_first(alloc, object, plans, number, line, after);
        }
        rest = after;
        number += 1;
    }
    Err(not_a_line(number))
}

fn not_a_line(line: u64) -> Halt
    ensures { result ≡ Halt.Refused (record { line = line; why = LineRefusal.NotALine }) }
{
    Halt::Refused(Refusal {
        line,
        why: LineRefusal::NotALine,
    })
}

/// The first line that isn't skipped makes the world, and the others are played in it.
fn run_first(
    alloc: Global,
    object: &Object,
    plans: &Plans,
    number: u64,
    line: &[u8],
    rest: &[u8],
) -> Result<World, Halt>
    requires plans { ArePlans object.now plans.now.at }
    requires few { number + length rest.now ≤ 2 ^ 63 }
    ensures { MakesWorld object.now (settings_of plans.now.at) (replays.played_first object.now (settings_of plans.now.at) number (lines_of rest.now) (read_of object.now line.now)) result }
{
    match read_line(alloc, object, line) {
        Ok(Line::Replicas(count)) => run_world(alloc, object, plans, count, number, rest),
        Ok(Line::Act(_)) => Err(not_a_line(number)),
        Ok(Line::Ask(_)) => Err(not_a_line(number)),
        Err(LineFault::NoMemory) => Err(Halt::NoMemory),
        Err(LineFault::NotALine) => Err(not_a_line(number)),
        Err(LineFault::UnknownName) => Err(not_a_line(number)),
        Err(LineFault::BadKey) => Err(not_a_line(number)),
    }
}

/// Makes the world of so many replicas, and plays the lines after that one.
fn run_world(
    alloc: Global,
    object: &Object,
    plans: &Plans,
    count: u8,
    number: u64,
    rest: &[u8],
) -> Result<World, Halt>
    requires plans { ArePlans object.now plans.now.at }
    requires some { 1 ≤ count }
    requires most { count ≤ MAX_REPLICAS }
    requires few { number + length rest.now ≤ 2 ^ 63 }
    ensures { MakesWorld object.now (settings_of plans.now.at) (replays.played_made object.now (settings_of plans.now.at) number count (lines_of rest.now)) result }
{
    let mut world = World::new(alloc, object, plan_for(object, plans, count))?;
    run_rest(alloc, &mut world, number + 1, rest)?;
    Ok(world)
}

/// Plays the lines from the one with this number on.
fn run_rest(alloc: Global, world: &mut World, first: u64, lines: &[u8]) -> Result<(), Halt>
    requires going { world.old.stopped ≡ false }
    requires few { first + length lines.now ≤ 2 ^ 63 + 1 }
    ensures { PlaysRest world.old world.new (left world.old first (lines_of lines.now)) result }
{
    let mut text = Items::new(alloc);
    let mut rest = lines;
    let mut number = first;
    while !rest.is_empty() {
        let (line, after) = first_line(rest);
        text.truncate(0);
        if let Some(why) = play_line(alloc, world, line, &mut text)? {
            return Err(Halt::Refused(Refusal { line: number, why }));
        }
        rest = after;
        number += 1;
    }
    Ok(())
}
