//! What every plan and every object gives to the table of turns.

ghost use Rattle.ham_syntax.specs.Checked.{IsChecked};
ghost use Rattle.ham_syntax.specs.Objects.{Schema};
ghost use Rattle.ham_plan.specs.Plans.{Plan, IsPlan, slots};
ghost use Rattle.ham_turns.specs.Settings.{rules_of, setting_of};
ghost use Rattle.ham_turns.specs.Tables.{IsRanged, IsTabled};

/// Each number that a plan gives is one that exists, and calls are where the plan says.
pub fn plans_are_tabled()
    ensures { (p : Plan) → IsPlan p → IsTabled (setting_of p) (slots p) }
{}

/// Acts that fit a checked object, with arguments of 64 bits, have a place in frames, and so have the conditions that fail.
pub fn rules_are_ranged()
    ensures { (o : Schema) → IsChecked o → IsRanged (rules_of o) }
{}
