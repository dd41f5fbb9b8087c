//! The commands `bulk OBJECT SEED N ROUNDS` and `script OBJECT SEED N ROUNDS`.

ghost use Rattle.std.specs.Prelude.{◌≡◌};
ghost use Rattle.ham_cli.specs.Commands.{IsDrawing};
ghost use Rattle.ham_cli.specs.Exits.{IsSinkCounted};
ghost use Rattle.ham_cli.specs.PlayAnswers as answers;
ghost use Rattle.ham_cli.specs.Told.{Tells};

use crate::command::Drawing;
use crate::exit::{Exit, exit_of_replay};
use crate::laws::derived_plans_have_one_setting;
use ham_bulk::{bulk, script};
use ham_bytes::Sink;
use ham_plan::Plan;
use ham_syntax::Object;
use ham_tables::laws::derived_plans_are_sound;
use ham_tables::plan_of;
use std::alloc::Global;

/// The derived plan for the drawing's replicas.
fn plan_for(object: &Object, drawing: Drawing) -> Plan
    requires { IsDrawing drawing }
    ensures { answers.DerivesPlan object.now drawing result }
{
    derived_plans_are_sound();
    let _methods = object.methods();
    plan_of(object, drawing.replicas)
}

/// Plays the script that is drawn, and writes what became of it.
pub(crate) fn put_bulk<K: Sink>(
    alloc: Global,
    object: &Object,
    drawing: Drawing,
    out: &mut K,
) -> Exit
    requires { IsDrawing drawing }
    ensures ends { Tells (answers.AnswersBulk object.now drawing) (K.taken out.old) (K.taken out.new) result }
    ensures counted { IsSinkCounted (K.faults out.old) (K.faults out.new) result }
{
    let plan = plan_for(object, drawing);
    exit_of_replay(bulk(alloc, object, &plan, drawing.seed, drawing.rounds, out))
}

/// Writes the script that is drawn.
pub(crate) fn put_script<K: Sink>(
    alloc: Global,
    object: &Object,
    drawing: Drawing,
    out: &mut K,
) -> Exit
    requires { IsDrawing drawing }
    ensures ends { Tells (answers.AnswersScript object.now drawing) (K.taken out.old) (K.taken out.new) result }
    ensures replays { result ≡ Exit.Done → answers.IsReplayed object.now drawing }
    ensures counted { IsSinkCounted (K.faults out.old) (K.faults out.new) result }
{
    derived_plans_have_one_setting();
    let plan = plan_for(object, drawing);
    exit_of_replay(script(alloc, object, &plan, drawing.seed, drawing.rounds, out))
}
