//! That the premises of the laws are met, by three runs of three replicas; and what slips in the definitions would do.

ghost use Rattle.std.specs.Prelude.{◌≡◌};
ghost use Rattle.ham_syntax.specs.Objects.{Schema};
ghost use Rattle.ham_laws.specs.Bank.{bank};
ghost use Rattle.ham_turns.specs.Settings.{rules_of};
ghost use Rattle.ham_laws.specs.Constrained.{IsPlanned};
ghost use Rattle.ham_plan.specs.Plans.{IsSingle};
ghost use Rattle.ham_runs.specs.Runs.{IsRun};
ghost use Rattle.ham_runs.specs.Next.{run_of};
ghost use Rattle.ham_runs.specs.Headline.{IsFaithful};
ghost use Rattle.ham_runs.specs.Story.{HasOutcomes, three, setting, story, told};
ghost use Rattle.ham_runs.specs.Leaders.{two_led, leaders, asked_of_both, led};
ghost use Rattle.ham_runs.specs.OneLed.{one_led, one_leader, asked_of_one, followed};
ghost use Rattle.ham_runs.specs.Slips.{SlipsShow};

use crate::laws::{inputs_give_runs, plans_are_settings, runs_are_faithful};

/// A run of the bank at three replicas, written out note by note, is computed of its inputs. Two withdrawals conflict
/// and share a lane, one of them is asked of another replica; frames are lost, repeated, reordered and torn.
pub fn story_is_told()
    ensures planned { IsPlanned bank three }
    ensures outcomes { HasOutcomes (rules_of bank) }
    ensures computed { (o : Schema) → HasOutcomes (rules_of o) → run_of (rules_of o) setting story ≡ told }
    ensures run { IsRun (rules_of bank) setting told }
    ensures faithful { IsFaithful (rules_of bank) setting told }
{
    plans_are_settings();
    inputs_give_runs();
    runs_are_faithful();
}

/// A run in which two groups have different leaders, and a call waits for one of the other group.
pub fn leaders_are_told()
    ensures planned { IsPlanned bank two_led }
    ensures computed { (o : Schema) → HasOutcomes (rules_of o) → run_of (rules_of o) leaders asked_of_both ≡ led }
    ensures run { IsRun (rules_of bank) leaders led }
    ensures faithful { IsFaithful (rules_of bank) leaders led }
{
    story_is_told();
    inputs_give_runs();
    runs_are_faithful();
}

/// A run under the single plan, in which each log is a front of the leader's.
pub fn one_leader_is_told()
    ensures planned { IsPlanned bank one_led }
    ensures single { IsSingle one_led }
    ensures computed { (o : Schema) → HasOutcomes (rules_of o) → run_of (rules_of o) one_leader asked_of_one ≡ followed }
    ensures run { IsRun (rules_of bank) one_leader followed }
    ensures faithful { IsFaithful (rules_of bank) one_leader followed }
{
    story_is_told();
    inputs_give_runs();
    runs_are_faithful();
}

/// Each slip is one: what the definition would say with it is false, or is not what the run needs.
pub fn slips_show()
    ensures { SlipsShow }
{}
