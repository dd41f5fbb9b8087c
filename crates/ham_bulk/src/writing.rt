//! Scripts, written.

ghost use Rattle.std.specs.Prelude.{◌≡◌, ◌<◌, ◌≤◌, ◌++◌, IfOk, OnOk, ℕ};
ghost use Rattle.std.specs.List.{flat_map, AllByRecursion};
ghost use Rattle.ham_syntax.specs.declared.limits.TheConstants.{MAX_REPLICAS};
ghost use Rattle.ham_bytes.specs.Causes.{Rose};
ghost use Rattle.ham_turns.specs.Settings.{Setting, setting_of};
ghost use Rattle.ham_laws.specs.Constrained.{IsPlanned};
ghost use Rattle.ham_grammar.specs.Lines.{IsPrintableEvent};
ghost use Rattle.ham_grammar.specs.declared.line.Line.TheVariants as line_kinds;
ghost use Rattle.ham_replay.specs.Replays.{played};
ghost use Rattle.ham_replay.specs.Ends.{EndsAs, Writes};
ghost use Rattle.ham_bulk.specs.Scripts as scripts;
ghost use Rattle.ham_bulk.specs.ScriptTexts as texts;
ghost use Rattle.ham_bulk.specs.Scripted.{AreSpelled, IsPlayedTo, scripted};
ghost use Rattle.ham_bulk.specs.Made.{IsMade};

use crate::draft::Draft;
use crate::drafting::{MAX_ROUNDS, drafted};
use crate::laws::scripts_replay;
use crate::lines::{push_compares, push_events, push_line};
use crate::made::{Made, put};
use ham_bytes::Sink;
use ham_grammar::Line;
use ham_lists::{Bytes, Items, NoMemory};
use ham_plan::Plan;
use ham_replay::ReplayEnd;
use ham_syntax::Object;
use ham_turns::Event;
use std::alloc::Global;

/// Writes the script of a number and so many rounds, at most `MAX_ROUNDS`, up to a refused line and its refusal. Replayed, a
/// script that was written whole is played to its end.
pub fn script<K: Sink>(
    alloc: Global,
    object: &Object,
    plan: &Plan,
    seed: u64,
    rounds: u32,
    out: &mut K,
) -> ReplayEnd
    requires planned { IsPlanned object.now plan.now }
    requires few { rounds ≤ MAX_ROUNDS }
    ensures ends { EndsAs (scripted object.now (setting_of plan.now) seed rounds) result }
    ensures writes { Writes (K.taken out.old) (K.taken out.new) (scripted object.now (setting_of plan.now) seed rounds).text result }
    ensures replays { result ≡ ReplayEnd.Done → (settings : ℕ → Setting) → settings plan.now.replicas ≡ setting_of plan.now →
        IsPlayedTo (played object.now settings (scripted object.now (setting_of plan.now) seed rounds).text) plan.now.replicas (scripted object.now (setting_of plan.now) seed rounds).notes }
    ensures later { K.faults out.old ≤ K.faults out.new }
    ensures cause { result ≡ ReplayEnd.WriteFault → Rose (K.faults out.old) (K.faults out.new) }
{
    scripts_replay();
    put(script_of(alloc, object, plan, seed, rounds), out)
}

fn script_of(
    alloc: Global,
    object: &Object,
    plan: &Plan,
    seed: u64,
    rounds: u32,
) -> Result<Made, NoMemory>
    requires { IsPlanned object.now plan.now }
    ensures made { IfOk result (IsMade (scripted object.now (setting_of plan.now) seed rounds)) }
    ensures spelled { OnOk result (AreSpelled object.now (scripts.generated object.now (setting_of plan.now) seed rounds).events) }
{
    let draft = drafted(alloc, object, plan, seed, rounds)?;
    let replicas = plan.replicas();
    let text = lines_of_events(alloc, object, replicas, draft.events.items())?;
    ended(alloc, object, replicas, text, &draft)
}

/// The lines that make the replicas, and those of events.
fn lines_of_events(
    alloc: Global,
    object: &Object,
    replicas: u8,
    events: &[Event],
) -> Result<Bytes, NoMemory>
    requires some { 0 < replicas }
    requires few { replicas ≤ MAX_REPLICAS }
    requires printable { AllByRecursion (IsPrintableEvent object.now) events.now }
    ensures text { IfOk result (λ text. text ≡ texts.line_of object.now (line_kinds.Replicas replicas) ++ flat_map (texts.event_line object.now) events.now) }
    ensures spelled { OnOk result (AreSpelled object.now events.now) }
{
    let mut text = Items::new(alloc);
    push_line(alloc, object, &mut text, &Line::Replicas(replicas))?;
    push_events(alloc, object, &mut text, events)?;
    Ok(text)
}

/// The text with its last lines: the comparisons, or a refusal.
fn ended(
    alloc: Global,
    object: &Object,
    replicas: u8,
    mut text: Bytes,
    draft: &Draft,
) -> Result<Made, NoMemory>
    requires some { 0 < replicas }
    requires few { replicas ≤ MAX_REPLICAS }
    ensures text { IfOk result (λ m. m.text ≡ text ++ texts.last_lines object.now replicas draft.now.events draft.now.refused) }
    ensures refused { IfOk result (λ m. m.refused ≡ texts.refusal_after draft.now.events draft.now.refused) }
{
    match draft.refused {
        None => {
            push_compares(alloc, object, &mut text, replicas)?;
            Ok(Made {
                text,
                refused: None,
            })
        }
        Some(why) => Made::cut(alloc, text, draft.events.items(), why),
    }
}
