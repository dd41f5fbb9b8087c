//! What is true of records: contracts of functions with empty bodies.

ghost use Rattle.ham_syntax.specs.Objects.{Schema};
ghost use Rattle.ham_plan.specs.Plans.{Plan};
ghost use Rattle.ham_turns.specs.Settings.{rules_of, setting_of};
ghost use Rattle.ham_laws.specs.Constrained.{IsPlanned};
ghost use Rattle.ham_audit.specs.Claims.{FaultlessAreSound, RunsHaveNoFault, TextsAreRecorded};

use ham_runs::laws::plans_are_settings;

/// Records without a fault stand for a well-coordinated execution: the invariant holds after every prefix of every log,
/// and logs with the same calls end in equal states.
pub fn faultless_records_are_sound()
    ensures { (o : Schema) (p : Plan) → IsPlanned o p → FaultlessAreSound (rules_of o) (setting_of p) }
{
    plans_are_settings();
}

/// The logs of a run have no fault.
pub fn runs_have_no_fault()
    ensures { (o : Schema) (p : Plan) → IsPlanned o p → RunsHaveNoFault (rules_of o) (setting_of p) }
{
    plans_are_settings();
}

/// Records that a text spells are records of as many replicas as it names, and their acts fit.
pub fn texts_are_recorded()
    ensures { (o : Schema) (p : Plan) → TextsAreRecorded o p }
{}
