//! The laws of coordination for the plan that an object's rules derive, as contracts of functions with empty bodies.

ghost use Rattle.std.specs.Prelude.{◌≡◌, ℕ};
ghost use Rattle.ham_syntax.specs.declared.act.Act.{Act};
ghost use Rattle.ham_syntax.specs.declared.act.Place.{Place};
ghost use Rattle.ham_syntax.specs.Objects.{Schema};
ghost use Rattle.ham_syntax.specs.Checked.{IsChecked};
ghost use Rattle.ham_meaning.specs.OfObjects.{meaning};
ghost use Rattle.ham_laws.specs.Coordinated.{IsCoordinated};
ghost use Rattle.ham_laws.specs.Executions.{Execution, IsWellCoordinated};
ghost use Rattle.ham_laws.specs.Constrained.{constraints_of, IsPlanned};
ghost use Rattle.ham_plan.specs.Plans.{Plan, IsPlan};
ghost use Rattle.ham_plan.specs.Same.{SaysSame};
ghost use Rattle.ham_tables.specs.DerivedPlans.{conflict_of, IsDerivedPlan};
ghost use Rattle.ham_tables.specs.TablesText.{tables_text};

/// Whether two methods conflict doesn't depend on their order.
pub fn conflicts_are_symmetric()
    ensures { (o : Schema) (m n : ℕ) → IsChecked o → conflict_of o m n ≡ conflict_of o n m }
{}

/// A derived plan of a checked object has the object's methods and is sound for it.
pub fn derived_plans_are_sound()
    ensures { (o : Schema) (p : Plan) → IsChecked o → IsDerivedPlan o p → IsPlanned o p }
{}

/// Plans with the same methods, replicas, conflicts and dependencies have one text of tables; the plans that are derived for
/// so many replicas are such.
pub fn derived_plans_say_one()
    ensures text { (o : Schema) (p q : Plan) → IsPlan p → IsPlan q → SaysSame p q → tables_text o p ≡ tables_text o q }
    ensures same { (o : Schema) (p q : Plan) → IsDerivedPlan o p → IsDerivedPlan o q → p.replicas ≡ q.replicas → SaysSame p q }
{}

/// Every execution that is well-coordinated under a derived plan keeps the invariant and ends alike: closed lists of the
/// same calls end in one state, each call of one is permissible at its place, and the invariant holds after every prefix.
pub fn derived_plans_coordinate()
    ensures { (o : Schema) (p : Plan) (e : Execution Place Act) → IsChecked o → IsDerivedPlan o p → IsWellCoordinated (meaning o) (constraints_of p) e → IsCoordinated (meaning o) (constraints_of p) e }
{}
