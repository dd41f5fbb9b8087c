//! The first case that breaks a claim's relation.

ghost use Rattle.std.specs.Prelude.{◌^◌, ◌≤◌, length, ◌≡◌, ◌↔◌, MatchOption, MatchResult, IfOk, Err};
ghost use Rattle.std.specs.List.{flat_map, AllByRecursion};
ghost use Rattle.ham_steps.specs.Content.{opening};
ghost use Rattle.ham_steps.specs.Steps.{after_steps, IsWithin};
ghost use Rattle.ham_rules.specs.Claims.{Derivable};
ghost use Rattle.ham_witness.specs.Cases as cases;
ghost use Rattle.ham_witness.specs.Shown as shown;

use crate::acts::{first_act, mask_count, second_act};
use crate::answers::{Example, NoExample, Shown};
use crate::breaks::shown_by;
use crate::ids::{Ids, ids_of};
use crate::kinds::{CounterKind, Kinds, RowKind};
use crate::states::{MAX_STEPS, made, state_steps};
use ham_rules::{Claim, derivable};
use ham_state::{State, Step};
use ham_syntax::{Act, NoMemory as OutOfMemory, Object};
use std::alloc::Global;

/// The kinds of states, in order.
const KINDS: [Kinds; 9] = [
    Kinds {
        rows: RowKind::NoRows,
        counters: CounterKind::Zero,
    },
    Kinds {
        rows: RowKind::NoRows,
        counters: CounterKind::AboveLow,
    },
    Kinds {
        rows: RowKind::NoRows,
        counters: CounterKind::BelowHigh,
    },
    Kinds {
        rows: RowKind::Referred,
        counters: CounterKind::Zero,
    },
    Kinds {
        rows: RowKind::Referred,
        counters: CounterKind::AboveLow,
    },
    Kinds {
        rows: RowKind::Referred,
        counters: CounterKind::BelowHigh,
    },
    Kinds {
        rows: RowKind::AllRows,
        counters: CounterKind::Zero,
    },
    Kinds {
        rows: RowKind::AllRows,
        counters: CounterKind::AboveLow,
    },
    Kinds {
        rows: RowKind::AllRows,
        counters: CounterKind::BelowHigh,
    },
];

/// A second act, and what it shows with the first.
#[derive(Clone, Copy)]
struct Found {
    n: Option<Act>,
    shown: Shown,
}

/// The first mask that breaks the relation in the state of a kind, which the steps make.
fn first_mask(
    alloc: Global,
    object: &Object,
    claim: &Claim,
    ids: Ids,
    steps: &[Step],
    state: &State,
    kinds: Kinds,
) -> Result<Option<Found>, OutOfMemory>
    requires steps { steps.now ≡ cases.state_steps object.now ids kinds }
    requires state { state.now.content ≡ cases.state_of object.now ids kinds }
    requires made { state.now.content ≡ after_steps steps.now opening }
    requires opened { state.now.invariants ≡ object.now.invariants }
    requires few { length steps.now ≤ MAX_STEPS }
    requires small { AllByRecursion (IsWithin (2 ^ 50)) steps.now }
    ensures { IfOk result (λ found. MatchOption found
        (shown.NoneBreaks object.now claim.now (cases.cases_with object.now ids claim.now kinds))
        (λ f. shown.IsFirstExample object.now claim.now (cases.cases_with object.now ids claim.now kinds)
        (record { state = state.now; m = cases.first_act object.now ids claim.now; n = f.n; shown = f.shown }))) }
{
    let m = first_act(object, ids, claim);
    let count = mask_count(object, claim);
    for mask in 0..count {
        let n = second_act(object, ids, mask, claim);
        match shown_by(alloc, object, claim, steps, state, &m, &n)? {
            Some(shown) => return Ok(Some(Found { n, shown })),
            None => {}
        }
    }
    Ok(None)
}

/// The first case of a kind that breaks the relation.
fn first_with(
    alloc: Global,
    object: &Object,
    claim: &Claim,
    ids: Ids,
    kinds: Kinds,
) -> Result<Option<Example>, OutOfMemory>
    ensures { IfOk result (λ found. MatchOption found
        (shown.NoneBreaks object.now claim.now (cases.cases_with object.now ids claim.now kinds))
        (shown.IsFirstExample object.now claim.now (cases.cases_with object.now ids claim.now kinds))) }
{
    let steps = state_steps(alloc, object, ids, kinds)?;
    let state = made(alloc, object, steps.items())?;
    match first_mask(alloc, object, claim, ids, steps.items(), &state, kinds)? {
        None => Ok(None),
        Some(found) => Ok(Some(Example {
            state,
            m: first_act(object, ids, claim),
            n: found.n,
            shown: found.shown,
        })),
    }
}

/// The first case of some kinds that breaks the relation.
fn first_of(
    alloc: Global,
    object: &Object,
    claim: &Claim,
    ids: Ids,
    all: &[Kinds],
) -> Result<Option<Example>, OutOfMemory>
    ensures { IfOk result (λ found. MatchOption found
        (shown.NoneBreaks object.now claim.now (flat_map (cases.cases_with object.now ids claim.now) all.now))
        (shown.IsFirstExample object.now claim.now (flat_map (cases.cases_with object.now ids claim.now) all.now))) }
{
    for kinds in all {
        if let Some(example) = first_with(alloc, object, claim, ids, *kinds)? {
            return Ok(Some(example));
        }
    }
    Ok(None)
}

/// The first case in order that breaks the claim's relation; else that the claim is derivable, or that no case does.
pub fn example(alloc: Global, object: &Object, claim: &Claim) -> Result<Example, NoExample>
    ensures answer { MatchResult result (shown.IsFirstExample object.now claim.now (cases.cases object.now claim.now)) (shown.IsCause object.now claim.now) }
    ensures derivable { (result ≡ Err NoExample.Derivable) ↔ Derivable object.now claim.now }
    ensures breaks { IfOk result (λ e. shown.BreaksBy object.now claim.now e.state.content e.m e.n) }
    ensures invariant { IfOk result (λ e. shown.HoldsUnlessSc object.now claim.now e.state.content) }
{
    if derivable(object, claim) {
        return Err(NoExample::Derivable);
    }
    let ids = ids_of(object, claim);
    match first_of(alloc, object, claim, ids, &KINDS)? {
        Some(example) => Ok(example),
        None => Err(NoExample::NotShown),
    }
}
