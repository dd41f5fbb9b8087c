//! The script of a number: its rounds are played, and then its sweeps.

ghost use Rattle.std.specs.Prelude.{◌≡◌, [], false, IfOk};
ghost use Rattle.std.specs.List.{AllByRecursion};
ghost use Rattle.ham_turns.specs.Settings.{setting_of};
ghost use Rattle.ham_laws.specs.Constrained.{IsPlanned};
ghost use Rattle.ham_grammar.specs.Lines.{IsPrintableEvent};
ghost use Rattle.ham_world.specs.Worlds.{Run};
ghost use Rattle.ham_bulk.specs.Scripts as scripts;
ghost use Rattle.ham_bulk.specs.Drafts.{IsAfter, IsDraftOf};

use crate::draft::Draft;
use crate::laws::scripts_print;
use crate::sweep::sweep_twice;
use ham_lists::NoMemory;
use ham_plan::Plan;
use ham_syntax::Object;
use ham_world::World;
use std::alloc::Global;

/// The most rounds of a script.
pub const MAX_ROUNDS: u32 = 20_000;

/// The script of a number and so many rounds, for an object under its plan.
pub(crate) fn drafted(
    alloc: Global,
    object: &Object,
    plan: &Plan,
    seed: u64,
    rounds: u32,
) -> Result<Draft, NoMemory>
    requires { IsPlanned object.now plan.now }
    ensures { IfOk result (λ draft. IsDraftOf object.now (scripts.generated object.now (setting_of plan.now) seed rounds) draft) }
{
    scripts_print();
    let mut world = World::new(alloc, object, plan)?;
    draft_of(alloc, &mut world, seed, rounds)
}

/// The script of a number and so many rounds, played in a new world.
pub(crate) fn draft_of(
    alloc: Global,
    world: &mut World,
    seed: u64,
    rounds: u32,
) -> Result<Draft, NoMemory>
    requires going { world.old.stopped ≡ false }
    requires new { world.old.notes ≡ [] }
    ensures { IfOk result (λ draft. IsAfter world.old world.new draft (scripts.generated world.old.object (setting_of world.old.plan) seed rounds)) }
{
    let mut draft = Draft::new(alloc, seed);
    draft.play(alloc, world, rounds)?;
    sweep_twice(alloc, world, &mut draft)?;
    Ok(draft)
}
