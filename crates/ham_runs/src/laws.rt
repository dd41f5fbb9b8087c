//! What is so of every run of a checked object under a plan that is sound for it (`IsPlanned`).

ghost use Rattle.std.specs.Prelude.{◌≡◌};
ghost use Rattle.ham_syntax.specs.Objects.{Schema};
ghost use Rattle.ham_plan.specs.Plans.{Plan, IsPlan, IsSingle};
ghost use Rattle.ham_turns.specs.Settings.{rules_of, setting_of};
ghost use Rattle.ham_laws.specs.Constrained.{IsPlanned};
ghost use Rattle.ham_plan.specs.Same.{SaysSame};
ghost use Rattle.ham_runs.specs.Facts.{IsGiven};
ghost use Rattle.ham_runs.specs.Claims.{RunsAreFaithful, FramesAreTaken, LanesHaveRoom, NotesFollow, InputsGiveRuns, OneRun};
ghost use Rattle.ham_runs.specs.Claims.{TurnsRefine, ReadyByNeeds, RunsAreSettled, TornAndTicksLeave, LogsFollow};

use ham_laws::laws::{calls_are_permissible, invariant_holds, states_agree};
use ham_laws::turns::{
    decisions_keep, drains_keep, drains_list_the_reach, lanes_stay_ordered, ready_by_counts,
};
use ham_meaning::laws::{one_outcome, outcome_is_exact};

/// A sound plan with the methods of a checked object has all that the laws of runs rest on.
pub fn plans_are_settings()
    ensures { (o : Schema) (p : Plan) → IsPlanned o p → IsGiven (rules_of o) (setting_of p) }
{
    states_agree();
    calls_are_permissible();
    invariant_holds();
    decisions_keep();
    drains_keep();
    drains_list_the_reach();
    lanes_stay_ordered();
    ready_by_counts();
    outcome_is_exact();
    one_outcome();
}

/// Plans that say the same have one setting, and so the same runs.
pub fn plans_have_one_setting()
    ensures { (p q : Plan) → IsPlan p → IsPlan q → SaysSame p q → setting_of p ≡ setting_of q }
{}

/// Every run is faithful: at each moment each replica's state satisfies the invariants, replicas with the same logged
/// calls have equal states, and an act is forbidden exactly where the state of the replica that decides it forbids it.
pub fn runs_are_faithful()
    ensures { (o : Schema) (p : Plan) → IsPlanned o p → RunsAreFaithful (rules_of o) (setting_of p) }
{
    plans_are_settings();
}

/// Whatever was sent may be delivered next, and no lane has more calls than it takes.
pub fn runs_go_on()
    ensures taken { (o : Schema) (p : Plan) → IsPlanned o p → FramesAreTaken (rules_of o) (setting_of p) }
    ensures room { (o : Schema) (p : Plan) → IsPlanned o p → LanesHaveRoom (rules_of o) (setting_of p) }
{
    plans_are_settings();
}

/// One list of inputs gives one run, and `run_of` computes it.
pub fn inputs_give_runs()
    ensures noted { (o : Schema) (p : Plan) → IsPlanned o p → NotesFollow (rules_of o) (setting_of p) }
    ensures computed { (o : Schema) (p : Plan) → IsPlanned o p → InputsGiveRuns (rules_of o) (setting_of p) }
    ensures one { (o : Schema) (p : Plan) → IsPlanned o p → OneRun (rules_of o) (setting_of p) }
{
    plans_are_settings();
}

/// A replica whose words are the run's, and that drains by numbers and counts, makes the run's next note.
pub fn turns_refine()
    ensures { (o : Schema) (p : Plan) → IsPlanned o p → TurnsRefine (rules_of o) (setting_of p) }
{
    plans_are_settings();
}

/// At each closed log a call is ready by its number and counts exactly where its needs are logged; between turns none is.
pub fn runs_are_settled()
    ensures ready_by_needs { (o : Schema) (p : Plan) → IsPlanned o p → ReadyByNeeds (rules_of o) (setting_of p) }
    ensures settled { (o : Schema) (p : Plan) → IsPlanned o p → RunsAreSettled (rules_of o) (setting_of p) }
    ensures words_stay { (o : Schema) (p : Plan) → IsPlanned o p → TornAndTicksLeave (rules_of o) (setting_of p) }
{
    plans_are_settings();
}

/// Under the single plan every log is a prefix of replica 1's.
pub fn logs_follow()
    ensures { (o : Schema) (p : Plan) → IsPlanned o p → IsSingle p → LogsFollow (rules_of o) (setting_of p) }
{
    plans_are_settings();
}
