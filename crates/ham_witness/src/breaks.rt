//! Whether a case breaks a claim's relation, and what it shows.

ghost use Rattle.std.specs.Prelude.{◌≡◌, ◌≢◌, ◌↔◌, ℕ, ◌^◌, ◌≤◌, nat_abs, length, IsTrue, IfOk, IfSome, Option, Some, MatchOption};
ghost use Rattle.std.specs.List.{AllByRecursion};
ghost use Rattle.ham_syntax.specs.declared.act.Act.{Act};
ghost use Rattle.ham_syntax.specs.Objects.{args_fit, columns_of};
ghost use Rattle.ham_steps.specs.Content.{State as Content, opening, value};
ghost use Rattle.ham_steps.specs.Steps.{after_steps, IsWithin};
ghost use Rattle.ham_meaning.specs.Meaning.{update, AllHold, IsPermissible};
ghost use Rattle.ham_meaning.specs.OfObjects.{HasColumns};
ghost use Rattle.ham_witness.specs.Cases as cases;
ghost use Rattle.ham_witness.specs.Shown as specs;

use crate::answers::Shown;
use crate::states::{MAX_STEPS, made};
use ham_meaning::{Outcome, apply, invariant_holds, permissible};
use ham_rules::Claim;
use ham_state::{State, Step};
use ham_syntax::{Act, NoMemory, Object};
use std::alloc::Global;

fn holds(object: &Object, state: &State) -> bool
    requires { state.now.invariants ≡ object.now.invariants }
    ensures { IsTrue result ↔ AllHold object.now state.now.content }
{
    matches!(invariant_holds(object, state), Outcome::Yes)
}

fn may(object: &Object, state: &State, act: &Act) -> bool
    requires fit { IsTrue (args_fit object.now act.now) }
    requires opened { state.now.invariants ≡ object.now.invariants }
    ensures { IsTrue result ↔ IsPermissible object.now state.now.content act.now }
{
    matches!(permissible(object, state, act), Outcome::Yes)
}

/// Why the act isn't permissible, where it isn't.
fn why_not(object: &Object, state: &State, act: &Act) -> Option<Shown>
    requires fit { IsTrue (args_fit object.now act.now) }
    requires opened { state.now.invariants ≡ object.now.invariants }
    ensures { MatchOption result (IsPermissible object.now state.now.content act.now) (specs.IsWhyNot object.now state.now.content act.now) }
{
    match permissible(object, state, act) {
        Outcome::Yes => None,
        Outcome::Guard(i) => Some(Shown::Outcome(Outcome::Guard(i))),
        Outcome::Invariant(i) => Some(Shown::Outcome(Outcome::Invariant(i))),
    }
}

/// The state after the act, from what the steps make of the opening state.
fn after(alloc: Global, object: &Object, steps: &[Step], act: &Act) -> Result<State, NoMemory>
    requires fit { IsTrue (args_fit object.now act.now) }
    requires few { length steps.now ≤ MAX_STEPS }
    requires small { AllByRecursion (IsWithin (2 ^ 50)) steps.now }
    ensures after { IfOk result (λ state. state.content ≡ update object.now act.now (after_steps steps.now opening)) }
    ensures opened { IfOk result (λ state. state.invariants ≡ object.now.invariants) }
    ensures values { IfOk result (λ state. (c k : ℕ) → nat_abs (value state.content c k) ≤ 2 ^ 61) }
{
    let mut state = made(alloc, object, steps)?;
    apply(object, &mut state, act)?;
    Ok(state)
}

/// Whether the two orders of the acts give two states.
fn differ(
    alloc: Global,
    object: &Object,
    steps: &[Step],
    a: &Act,
    b: &Act,
) -> Result<bool, NoMemory>
    requires fit { IsTrue (args_fit object.now a.now) }
    requires other_fit { IsTrue (args_fit object.now b.now) }
    requires few { length steps.now ≤ MAX_STEPS }
    requires small { AllByRecursion (IsWithin (2 ^ 50)) steps.now }
    ensures { IfOk result (λ yes. IsTrue yes ↔
        (update object.now a.now (update object.now b.now (after_steps steps.now opening))
        ≢ update object.now b.now (update object.now a.now (after_steps steps.now opening)))) }
{
    let mut one = after(alloc, object, steps, b)?;
    apply(object, &mut one, a)?;
    let mut other = after(alloc, object, steps, a)?;
    apply(object, &mut other, b)?;
    Ok(!one.equal(&other))
}

fn shown_two_orders(
    alloc: Global,
    object: &Object,
    steps: &[Step],
    a: &Act,
    b: &Act,
) -> Result<Option<Shown>, NoMemory>
    requires fit { IsTrue (args_fit object.now a.now) }
    requires other_fit { IsTrue (args_fit object.now b.now) }
    requires few { length steps.now ≤ MAX_STEPS }
    requires small { AllByRecursion (IsWithin (2 ^ 50)) steps.now }
    requires well_formed { HasColumns (columns_of object.now) (after_steps steps.now opening) }
    ensures { IfOk result (λ found. specs.Shows object.now (Claim.Sc a.now.method b.now.method) (after_steps steps.now opening) a.now (Some b.now) found) }
{
    if differ(alloc, object, steps, a, b)? {
        Ok(Some(Shown::Unequal))
    } else {
        Ok(None)
    }
}

fn shown_alone(object: &Object, state: &State, a: &Act) -> Option<Shown>
    requires fit { IsTrue (args_fit object.now a.now) }
    requires opened { state.now.invariants ≡ object.now.invariants }
    requires well_formed { HasColumns (columns_of object.now) state.now.content }
    ensures { (b : Option Act) → specs.Shows object.now (Claim.Is a.now.method) state.now.content a.now b result }
{
    if holds(object, state) {
        why_not(object, state, a)
    } else {
        None
    }
}

fn shown_right(
    alloc: Global,
    object: &Object,
    steps: &[Step],
    state: &State,
    a: &Act,
    b: &Act,
) -> Result<Option<Shown>, NoMemory>
    requires fit { IsTrue (args_fit object.now a.now) }
    requires other_fit { IsTrue (args_fit object.now b.now) }
    requires few { length steps.now ≤ MAX_STEPS }
    requires small { AllByRecursion (IsWithin (2 ^ 50)) steps.now }
    requires made { state.now.content ≡ after_steps steps.now opening }
    requires opened { state.now.invariants ≡ object.now.invariants }
    requires well_formed { HasColumns (columns_of object.now) state.now.content }
    ensures { IfOk result (λ found. specs.Shows object.now (Claim.Pr a.now.method b.now.method) state.now.content a.now (Some b.now) found) }
{
    if holds(object, state) && may(object, state, a) && may(object, state, b) {
        let after = after(alloc, object, steps, b)?;
        Ok(why_not(object, &after, a))
    } else {
        Ok(None)
    }
}

fn shown_left(
    alloc: Global,
    object: &Object,
    steps: &[Step],
    state: &State,
    a: &Act,
    b: &Act,
) -> Result<Option<Shown>, NoMemory>
    requires fit { IsTrue (args_fit object.now a.now) }
    requires other_fit { IsTrue (args_fit object.now b.now) }
    requires few { length steps.now ≤ MAX_STEPS }
    requires small { AllByRecursion (IsWithin (2 ^ 50)) steps.now }
    requires made { state.now.content ≡ after_steps steps.now opening }
    requires opened { state.now.invariants ≡ object.now.invariants }
    requires well_formed { HasColumns (columns_of object.now) state.now.content }
    ensures { IfOk result (λ found. specs.Shows object.now (Claim.Pl a.now.method b.now.method) state.now.content a.now (Some b.now) found) }
{
    if holds(object, state) && may(object, state, b) {
        let after = after(alloc, object, steps, b)?;
        if may(object, &after, a) {
            Ok(why_not(object, state, a))
        } else {
            Ok(None)
        }
    } else {
        Ok(None)
    }
}

fn shown_of_two(
    alloc: Global,
    object: &Object,
    claim: &Claim,
    steps: &[Step],
    state: &State,
    a: &Act,
    b: &Act,
) -> Result<Option<Shown>, NoMemory>
    requires first { a.now.method ≡ cases.first_method claim.now }
    requires second { Some b.now.method ≡ cases.second_method claim.now }
    requires few { length steps.now ≤ MAX_STEPS }
    requires small { AllByRecursion (IsWithin (2 ^ 50)) steps.now }
    requires made { state.now.content ≡ after_steps steps.now opening }
    requires opened { state.now.invariants ≡ object.now.invariants }
    requires well_formed { HasColumns (columns_of object.now) state.now.content }
    ensures { IfOk result (λ found. specs.Shows object.now claim.now state.now.content a.now (Some b.now) found) }
{
    if !object.args_fit(a) || !object.args_fit(b) {
        return Ok(None);
    }
    match *claim {
        Claim::Sc { .. } => shown_two_orders(alloc, object, steps, a, b),
        Claim::Is { .. } => Ok(shown_alone(object, state, a)),
        Claim::Pr { .. } => shown_right(alloc, object, steps, state, a, b),
        Claim::Pl { .. } => shown_left(alloc, object, steps, state, a, b),
    }
}

fn shown_of_one(object: &Object, claim: &Claim, state: &State, a: &Act) -> Option<Shown>
    requires first { a.now.method ≡ cases.first_method claim.now }
    requires opened { state.now.invariants ≡ object.now.invariants }
    requires well_formed { HasColumns (columns_of object.now) state.now.content }
    ensures { specs.Shows object.now claim.now state.now.content a.now None result }
{
    if !object.args_fit(a) {
        return None;
    }
    match *claim {
        Claim::Is { .. } => shown_alone(object, state, a),
        Claim::Sc { .. } | Claim::Pr { .. } | Claim::Pl { .. } => None,
    }
}

/// What the acts show in the state, which the steps make; none exactly where they don't break the relation.
pub(crate) fn shown_by(
    alloc: Global,
    object: &Object,
    claim: &Claim,
    steps: &[Step],
    state: &State,
    a: &Act,
    b: &Option<Act>,
) -> Result<Option<Shown>, NoMemory>
    requires first { a.now.method ≡ cases.first_method claim.now }
    requires second { IfSome b.now (λ act. Some act.method ≡ cases.second_method claim.now) }
    requires few { length steps.now ≤ MAX_STEPS }
    requires small { AllByRecursion (IsWithin (2 ^ 50)) steps.now }
    requires made { state.now.content ≡ after_steps steps.now opening }
    requires opened { state.now.invariants ≡ object.now.invariants }
    requires well_formed { HasColumns (columns_of object.now) state.now.content }
    ensures { IfOk result (λ found. specs.Shows object.now claim.now state.now.content a.now b.now found) }
{
    match b {
        None => Ok(shown_of_one(object, claim, state, a)),
        Some(b) => shown_of_two(alloc, object, claim, steps, state, a, b),
    }
}
