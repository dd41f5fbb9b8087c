//! What is so of every replay, as contracts of functions that do nothing.

ghost use Rattle.std.specs.Prelude.{◌≡◌, ℕ, List, None};
ghost use Rattle.ham_syntax.specs.Objects.{Schema};
ghost use Rattle.ham_plan.specs.Plans.{Plan};
ghost use Rattle.ham_turns.specs.Settings.{Setting};
ghost use Rattle.ham_turns.specs.declared.event.Event.TheVariants as events;
ghost use Rattle.ham_runs.specs.Runs.{Note};
ghost use Rattle.ham_world.specs.Worlds.{refusal_of};
ghost use Rattle.ham_replay.specs.Replays.{played, event_outcome};
ghost use Rattle.ham_replay.specs.Claims.{ArePlans, IsPlayedFaithfully, IsPlayedRun, settings_of};

use ham_grammar::laws::readings_are_computed;
use ham_runs::laws::{inputs_give_runs, runs_are_faithful};

/// The run that a schedule makes of an object under its plans is one of the object's runs, so it is faithful.
pub fn replays_are_faithful()
    ensures { (o : Schema) (plans : List Plan) (schedule : List ℕ) → ArePlans o plans → IsPlayedFaithfully o (settings_of plans) (played o (settings_of plans) schedule) }
{
    readings_are_computed();
    inputs_give_runs();
    runs_are_faithful();
}

/// The notes of what a schedule makes are a run, under the plan for as many replicas as it names.
pub fn replays_are_runs()
    ensures { (o : Schema) (plans : List Plan) (schedule : List ℕ) → ArePlans o plans → IsPlayedRun o plans (played o (settings_of plans) schedule) }
{
    readings_are_computed();
    inputs_give_runs();
}

/// However frames are cut, they are answered alike, and leave one run.
pub fn cuts_change_no_answer()
    ensures { (o : Schema) (y : Setting) (notes : List Note) (from to first last : ℕ) (cuts others : List ℕ) →
        refusal_of o y notes (events.Pieces from to first last cuts) ≡ None → refusal_of o y notes (events.Pieces from to first last others) ≡ None →
        event_outcome o y notes (events.Pieces from to first last cuts) ≡ event_outcome o y notes (events.Pieces from to first last others) }
{}
