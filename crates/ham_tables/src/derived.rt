//! The plan of an object: its conflicts and dependencies are what the rules don't derive away.

ghost use Rattle.std.specs.Prelude.{◌≡◌, ◌≢◌, ℕ, ◌<◌, ◌≤◌, false};
ghost use Rattle.ham_syntax.specs.Checked.{IsChecked};
ghost use Rattle.ham_syntax.specs.Objects.{Schema};
ghost use Rattle.ham_meaning.specs.OfObjects.{meaning};
ghost use Rattle.ham_laws.specs.Executions.{IsSound};
ghost use Rattle.ham_laws.specs.Constrained.{constraints_of};
ghost use Rattle.ham_plan.specs.Grids.{cell};
ghost use Rattle.ham_tables.specs.DerivedPlans as derived_plans;

use crate::deriver::Deriver;
use ham_plan::{Grid, Plan};
use ham_syntax::Object;
use ham_syntax::limits::{MAX_METHODS, MAX_REPLICAS};
use std::marker::Model;

/// Whether the methods conflict. Conflict is symmetric: where the row of n comes before that of m, it is read there.
fn conflict_at(grid: &Grid<MAX_METHODS>, deriver: &Deriver, m: u8, n: u8) -> bool
    requires m_exists { m < deriver.now.methods }
    requires n_exists { n < deriver.now.methods }
    requires above { n < m → cell grid.now.at n m ≡ derived_plans.conflict_of deriver.now.object.now n m }
    ensures { result ≡ derived_plans.conflict_of deriver.now.object.now m n }
{
    if n < m {
        grid.get(usize::from(n), usize::from(m))
    } else {
        deriver.conflict(m, n)
    }
}

/// Fills row m with the conflicts of method m.
fn fill_conflicts(grid: &mut Grid<MAX_METHODS>, deriver: &Deriver, m: u8)
    requires within { m < deriver.now.methods }
    requires above { (q : ℕ) → q < m → cell grid.old.at q m ≡ derived_plans.conflict_of deriver.now.object.now q m }
    requires fresh { (q : ℕ) → cell grid.old.at m q ≡ false }
    ensures row { (q : ℕ) → q < deriver.now.methods → cell grid.new.at m q ≡ derived_plans.conflict_of deriver.now.object.now m q }
    ensures others { (p q : ℕ) → p ≢ m → cell grid.new.at p q ≡ cell grid.old.at p q }
{
    for n in 0..deriver.methods {
        if conflict_at(grid, deriver, m, n) {
            grid.set(usize::from(m), usize::from(n));
        }
    }
}

/// Fills row m with what method m depends on.
fn fill_depends(grid: &mut Grid<MAX_METHODS>, deriver: &Deriver, m: u8)
    requires within { m < deriver.now.methods }
    requires fresh { (q : ℕ) → cell grid.old.at m q ≡ false }
    ensures row { (q : ℕ) → q < deriver.now.methods → cell grid.new.at m q ≡ derived_plans.depends_of deriver.now.object.now m q }
    ensures others { (p q : ℕ) → p ≢ m → cell grid.new.at p q ≡ cell grid.old.at p q }
{
    for n in 0..deriver.methods {
        if deriver.depends(m, n) {
            grid.set(usize::from(m), usize::from(n));
        }
    }
}

fn conflicts(deriver: &Deriver) -> Grid<MAX_METHODS>
    ensures { (m n : ℕ) → m < deriver.now.methods → n < deriver.now.methods → cell result.at m n ≡ derived_plans.conflict_of deriver.now.object.now m n }
{
    let mut grid = Grid::new();
    for m in 0..deriver.methods {
        fill_conflicts(&mut grid, deriver, m);
    }
    grid
}

fn dependencies(deriver: &Deriver) -> Grid<MAX_METHODS>
    ensures { (m n : ℕ) → m < deriver.now.methods → n < deriver.now.methods → cell result.at m n ≡ derived_plans.depends_of deriver.now.object.now m n }
{
    let mut grid = Grid::new();
    for m in 0..deriver.methods {
        fill_depends(&mut grid, deriver, m);
    }
    grid
}

/// An object's conflicts and dependencies, derived once: its plans for any number of replicas are made from them.
#[derive(Clone, Copy, Debug)]
pub struct Derived {
    methods: u8,
    conflict: Grid<MAX_METHODS>,
    depends: Grid<MAX_METHODS>,
}

impl Model for Derived {
    ghost use Rattle.ham_tables.specs.DerivedPlans.{Derived as Tables, AreTables};

    ghost Value = { Tables };

    ghost view = { λ d. record { methods = d.methods; conflict = d.conflict.at; depends = d.depends.at } };

    ghost inverse = { λ v. record { methods = v.methods; conflict = record { at = v.conflict }; depends = record { at = v.depends } } };

    ghost invariant = { λ d. AreTables (record { methods = d.methods; conflict = d.conflict.at; depends = d.depends.at }) };
}

impl Derived {
    /// What the rules derive from the object.
    pub fn of(object: &Object) -> Derived
        ensures { derived_plans.IsDerived object.now result }
    {
        let deriver = Deriver::of(object);
        Derived {
            methods: deriver.methods,
            conflict: conflicts(&deriver),
            depends: dependencies(&deriver),
        }
    }

    /// The plan for this many replicas, 1 to `MAX_REPLICAS`. It is sound for the object: what it leaves without order
    /// needs none.
    pub fn plan(&self, replicas: u8) -> Plan
        requires some_replicas { 0 < replicas }
        requires few_replicas { replicas ≤ MAX_REPLICAS }
        ensures replicas { result.replicas ≡ replicas }
        ensures derived { (o : Schema) → derived_plans.IsDerived o self.now → derived_plans.IsDerivedPlan o result }
        ensures sound { (o : Schema) → IsChecked o → derived_plans.IsDerived o self.now → IsSound (meaning o) (constraints_of result) }
    {
        Plan::make(&self.conflict, &self.depends, self.methods, replicas)
    }
}

/// The plan that the rules derive for this many replicas, 1 to `MAX_REPLICAS`. It is sound: what it leaves without order
/// needs none.
pub fn plan_of(object: &Object, replicas: u8) -> Plan
    requires some_replicas { 0 < replicas }
    requires few_replicas { replicas ≤ MAX_REPLICAS }
    ensures replicas { result.replicas ≡ replicas }
    ensures derived { derived_plans.IsDerivedPlan object.now result }
    ensures sound { IsSound (meaning object.now) (constraints_of result) }
{
    let _methods = object.methods();
    Derived::of(object).plan(replicas)
}
