//! The text of a world's logs.

ghost use Rattle.std.specs.Prelude.{◌≡◌, ◌++◌, ◌<◌, ◌^◌, false, IfOk, OnOk};
ghost use Rattle.std.specs.List.{AllByRecursion};
ghost use Rattle.ham_text.specs.Written.{line_text, lines_text};
ghost use Rattle.ham_plan.specs.Lists.{In};
ghost use Rattle.ham_turns.specs.Settings.{IsReplica, rules_of, setting_of};
ghost use Rattle.ham_runs.specs.Runs.{IsRun, log_of};
ghost use Rattle.ham_records.specs.Texts as texts;
ghost use Rattle.ham_record.specs.Recorded.{entry_at, entries_at, logs_at};

use ham_lists::{Bytes, Items, NoMemory};
use ham_records::{Logged, push_end, push_logged, push_opening, push_replica};
use ham_runs::laws::plans_are_settings;
use ham_syntax::{Act, Place};
use ham_world::World;
use std::alloc::Global;

/// The text of the logs, with the acts of their calls.
pub(crate) fn logs_text(alloc: Global, world: &World) -> Result<Bytes, NoMemory>
    requires going { world.now.stopped ≡ false }
    requires run { IsRun (rules_of world.now.object) (setting_of world.now.plan) world.now.notes }
    ensures text { IfOk result (λ text. text ≡ texts.text_of world.now.object (logs_at world.now)) }
    ensures spelled { IfOk result (λ _. texts.AreLogs world.now.object (logs_at world.now)) }
{
    let mut text = Items::new(alloc);
    let _planned = world.object();
    let replicas = world.replicas();
    push_opening(&mut text, replicas)?;
    for before in 0..replicas {
        push_log(&mut text, world, before + 1)?;
    }
    push_end(&mut text)?;
    Ok(text)
}

/// Puts the lines of a replica's log last.
fn push_log(text: &mut Bytes, world: &World, replica: u8) -> Result<(), NoMemory>
    requires going { world.now.stopped ≡ false }
    requires run { IsRun (rules_of world.now.object) (setting_of world.now.plan) world.now.notes }
    requires replica { IsReplica (setting_of world.now.plan) replica }
    ensures text { OnOk result (text.new ≡ text.old ++ lines_text (texts.log_lines world.now.object replica (entries_at world.now replica))) }
    ensures spelled { OnOk result (AllByRecursion (texts.IsLogged world.now.object) (entries_at world.now replica)) }
{
    push_replica(text, replica)?;
    let log = world.log(replica);
    for place in log {
        push_call(text, world, replica, place)?;
    }
    Ok(())
}

/// Puts the line of a logged call last.
fn push_call(text: &mut Bytes, world: &World, replica: u8, place: &Place) -> Result<(), NoMemory>
    requires going { world.now.stopped ≡ false }
    requires run { IsRun (rules_of world.now.object) (setting_of world.now.plan) world.now.notes }
    requires replica { IsReplica (setting_of world.now.plan) replica }
    requires logged { In place.now (log_of world.now.notes replica) }
    ensures text { OnOk result (text.new ≡ text.old ++ line_text (texts.call_words world.now.object (entry_at world.now place.now))) }
    ensures spelled { OnOk result (texts.IsLogged world.now.object (entry_at world.now place.now)) }
{
    // The acts of a run's calls fit, so that each has its line.
    plans_are_settings();
    let object = world.object();
    let act = world.act(replica, place);
    let _few = act.args.items();
    let logged = call_of(place.lane, place.number, act);
    push_logged(text, object, &logged)
}

/// The call at a place. Its numbers are as small as a text spells them.
fn call_of(lane: u8, number: u32, act: Act) -> Logged
    ensures is { result ≡ record { place = record { lane = lane; number = number }; act = act } }
    ensures lane { lane < 256 }
    ensures number { number < 2 ^ 32 }
{
    Logged {
        place: Place { lane, number },
        act,
    }
}
