//! Scripts, played and counted.

ghost use Rattle.std.specs.Prelude.{◌≡◌, ◌≤◌, ◌++◌, [], false, None, IfOk};
ghost use Rattle.ham_bytes.specs.Causes.{Rose};
ghost use Rattle.ham_turns.specs.Settings.{setting_of};
ghost use Rattle.ham_laws.specs.Constrained.{IsPlanned};
ghost use Rattle.ham_world.specs.Worlds.{Run};
ghost use Rattle.ham_replay.specs.Ends.{EndsAs, Writes};
ghost use Rattle.ham_bulk.specs.ScriptTexts as texts;
ghost use Rattle.ham_bulk.specs.Summaries as summaries;
ghost use Rattle.ham_bulk.specs.Scripted.{bulked};
ghost use Rattle.ham_bulk.specs.Made.{IsMade};

use crate::draft::Draft;
use crate::drafting::{MAX_ROUNDS, draft_of};
use crate::made::{Made, put};
use crate::summary::{push_count, push_summary};
use ham_bytes::Sink;
use ham_lists::{Bytes, Items, NoMemory};
use ham_plan::Plan;
use ham_replay::ReplayEnd;
use ham_syntax::Object;
use ham_text::{push_line_end, push_number};
use ham_world::World;
use std::alloc::Global;

/// Plays the script of a number and so many rounds, at most `MAX_ROUNDS`, and writes what became of it, or the refusal of its
/// refused line.
pub fn bulk<K: Sink>(
    alloc: Global,
    object: &Object,
    plan: &Plan,
    seed: u64,
    rounds: u32,
    out: &mut K,
) -> ReplayEnd
    requires planned { IsPlanned object.now plan.now }
    requires few { rounds ≤ MAX_ROUNDS }
    ensures ends { EndsAs (bulked object.now (setting_of plan.now) seed rounds) result }
    ensures writes { Writes (K.taken out.old) (K.taken out.new) (bulked object.now (setting_of plan.now) seed rounds).text result }
    ensures later { K.faults out.old ≤ K.faults out.new }
    ensures cause { result ≡ ReplayEnd.WriteFault → Rose (K.faults out.old) (K.faults out.new) }
{
    put(bulk_of(alloc, object, plan, seed, rounds), out)
}

fn bulk_of(
    alloc: Global,
    object: &Object,
    plan: &Plan,
    seed: u64,
    rounds: u32,
) -> Result<Made, NoMemory>
    requires { IsPlanned object.now plan.now }
    ensures { IfOk result (IsMade (bulked object.now (setting_of plan.now) seed rounds)) }
{
    let mut world = World::new(alloc, object, plan)?;
    bulk_in(alloc, &mut world, seed, rounds)
}

/// Plays the script in a new world, and counts.
fn bulk_in(alloc: Global, world: &mut World, seed: u64, rounds: u32) -> Result<Made, NoMemory>
    requires going { world.old.stopped ≡ false }
    requires new { world.old.notes ≡ [] }
    ensures { IfOk result (IsMade (bulked world.old.object (setting_of world.old.plan) seed rounds)) }
{
    let draft = draft_of(alloc, world, seed, rounds)?;
    let text = first_line(alloc, seed, world.replicas(), rounds)?;
    counted(alloc, world, text, &draft)
}

fn first_line(alloc: Global, seed: u64, replicas: u8, rounds: u32) -> Result<Bytes, NoMemory>
    ensures { IfOk result (λ text. text ≡ summaries.first_line_of_bulk seed replicas rounds) }
{
    let mut text = Items::new(alloc);
    push_count(&mut text, b"bulk", seed)?;
    push_number(&mut text, u64::from(replicas))?;
    push_number(&mut text, u64::from(rounds))?;
    push_line_end(&mut text)?;
    Ok(text)
}

/// The text with the summary of the run last, or with a refusal.
fn counted(alloc: Global, world: &World, mut text: Bytes, draft: &Draft) -> Result<Made, NoMemory>
    requires { world.now.stopped ≡ false }
    ensures text { IfOk result (λ m. m.text ≡ text ++ summaries.bulk_rest world.now.object (setting_of world.now.plan) draft.now.events world.now.notes draft.now.refused) }
    ensures refused { IfOk result (λ m. m.refused ≡ texts.refusal_after draft.now.events draft.now.refused) }
{
    match draft.refused {
        None => {
            push_summary(&mut text, world)?;
            Ok(Made {
                text,
                refused: None,
            })
        }
        Some(why) => Made::cut(alloc, text, draft.events.items(), why),
    }
}
