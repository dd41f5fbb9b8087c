//! The plans of an object.

ghost use Rattle.ham_replay.specs.Claims.{ArePlans};
ghost use Rattle.ham_cli.specs.Plans.{AreDerived};

use ham_replay::Plans;
use ham_syntax::Object;
use ham_tables::Derived;
use ham_tables::laws::derived_plans_are_sound;

/// The plans that the rules derive from an object, for 1 to `MAX_REPLICAS` replicas.
pub(crate) fn plans_of(object: &Object) -> Plans
    ensures derived { AreDerived object.now result.at }
    ensures sound { ArePlans object.now result.at }
{
    derived_plans_are_sound();
    let _methods = object.methods();
    let derived = Derived::of(object);
    Plans {
        at: [
            derived.plan(1),
            derived.plan(2),
            derived.plan(3),
            derived.plan(4),
            derived.plan(5),
            derived.plan(6),
            derived.plan(7),
            derived.plan(8),
        ],
    }
}
