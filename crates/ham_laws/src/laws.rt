//! What is true of every well-coordinated execution under a sound plan.
//!
//! Each law is stated of the meaning of every checked object, and of two meanings that are no object's, a register and a
//! purse: so that a reader sees it hold where all of it can be worked out by hand, and that it speaks of more than objects.

ghost use Rattle.std.specs.Prelude.{◌≡◌, length};
ghost use Rattle.ham_syntax.specs.Objects.{Schema};
ghost use Rattle.ham_syntax.specs.Checked.{IsChecked};
ghost use Rattle.ham_meaning.specs.OfObjects.{meaning};
ghost use Rattle.ham_laws.specs.Coordinated.{StatesAgree, CallsArePermissible, InvariantHolds};
ghost use Rattle.ham_laws.specs.Executions.{IsSound};
ghost use Rattle.ham_laws.specs.Single.{single};
ghost use Rattle.ham_plan.specs.Plans.{Plan, IsPlan};
ghost use Rattle.ham_laws.specs.Constrained.{constraints_of};
ghost use Rattle.ham_plan.specs.Plans.{IsSingle};
ghost use Rattle.ham_laws.specs.Register.{register};
ghost use Rattle.ham_laws.specs.Purse.{purse};

/// Two closed lists of the same calls end in one state, whatever their orders.
pub fn states_agree()
    ensures objects { (o : Schema) → IsChecked o → StatesAgree (meaning o) }
    ensures tiny_register { StatesAgree register }
    ensures tiny_purse { StatesAgree purse }
{}

/// Each call of a closed list is permissible at its place.
pub fn calls_are_permissible()
    ensures objects { (o : Schema) → IsChecked o → CallsArePermissible (meaning o) }
    ensures tiny_register { CallsArePermissible register }
    ensures tiny_purse { CallsArePermissible purse }
{}

/// The invariant holds after every prefix of a closed list.
pub fn invariant_holds()
    ensures objects { (o : Schema) → IsChecked o → InvariantHolds (meaning o) }
    ensures tiny_register { InvariantHolds register }
    ensures tiny_purse { InvariantHolds purse }
{}

/// The single plan, in which all methods conflict and depend on each other, is sound for every object.
pub fn single_plan_is_sound()
    ensures constraints { (o : Schema) → IsSound (meaning o) single }
    ensures plans { (o : Schema) (p : Plan) → IsPlan p → p.methods ≡ length o.methods → IsSingle p → IsSound (meaning o) (constraints_of p) }
{}
