//! Made-up states.

ghost use Rattle.std.specs.Prelude.{◌≡◌, ℕ, ◌+ℤ◌, ◌++◌, ◌^◌, ◌<◌, ◌≤◌, nat_abs, map, length, slice_get, Some, IfOk, OnOk, negsuc, pos};
ghost use Rattle.std.specs.Int.{int_max, int_min};
ghost use Rattle.std.specs.List.{list_any, AllByRecursion};
ghost use Rattle.ham_syntax.specs.Checked.{IsChecked};
ghost use Rattle.ham_steps.specs.declared.step.Step.TheVariants.{Change};
ghost use Rattle.ham_steps.specs.Content.{opening, value};
ghost use Rattle.ham_steps.specs.Steps.{after_steps, IsWithin};
ghost use Rattle.ham_witness.specs.Cases as cases;

use crate::acts::id_by;
use crate::ids::Ids;
use crate::kinds::{CounterKind, Kinds, RowKind};
use ham_state::{Net, Row, State, Step};
use ham_syntax::limits::{MAX_COLUMNS, MAX_COUNTERS, MAX_RELATIONS};
use ham_syntax::{Counter, Invariant, Items, NoMemory, Object};
use std::alloc::Global;

/// The most steps that make a made-up state: the inserts of all rows over two ids, and changes at two keys.
pub const MAX_STEPS: usize = MAX_RELATIONS * (1 << MAX_COLUMNS) + 2 * MAX_COUNTERS;

/// The greatest magnitude of a value in a made-up state.
pub const MAX_VALUE: u128 = 1 << 50;

fn row_by(ids: Ids, width: u8, mask: u32) -> Row
    requires some { 0 < width }
    requires few { width ≤ MAX_COLUMNS }
    ensures { result ≡ cases.row_by ids width mask }
{
    let mut row = [0u64; MAX_COLUMNS];
    for number in 0..width {
        row[usize::from(number)] = id_by(ids, mask, u32::from(number));
    }
    Row::new(&row[..usize::from(width)]).unwrap()
}

/// Puts the inserts of all rows over the two ids last.
fn push_inserts(steps: &mut Items<Step>, ids: Ids, relation: u8, width: u8) -> Result<(), NoMemory>
    requires some { 0 < width }
    requires few { width ≤ MAX_COLUMNS }
    ensures { OnOk result (steps.new ≡ steps.old ++ cases.inserts ids relation width) }
{
    let count = 1u32 << width;
    for mask in 0..count {
        steps.push(Step::Insert {
            relation,
            row: row_by(ids, width, mask),
        })?;
    }
    Ok(())
}

fn refers_to(invariant: &Invariant, relation: u8) -> bool
    ensures { result ≡ cases.refers_to relation invariant.now }
{
    match *invariant {
        Invariant::Reference { to, .. } => to == relation,
        Invariant::Unique { .. } => false,
        Invariant::Low { .. } => false,
        Invariant::High { .. } => false,
    }
}

fn is_referred(invariants: &[Invariant], relation: u8) -> bool
    ensures { result ≡ list_any (cases.refers_to relation) invariants.now }
{
    invariants
        .iter()
        .any(|invariant| refers_to(invariant, relation))
}

/// Whether all rows over the two ids stand in the relation.
fn stands(object: &Object, kind: RowKind, relation: u8) -> bool
    ensures { result ≡ cases.stands object.now kind relation }
{
    match kind {
        RowKind::NoRows => false,
        RowKind::Referred => is_referred(object.invariants(), relation),
        RowKind::AllRows => true,
    }
}

fn push_rows_of(
    steps: &mut Items<Step>,
    object: &Object,
    ids: Ids,
    kind: RowKind,
    relation: u8,
) -> Result<(), NoMemory>
    requires { relation < length object.now.relations }
    ensures { OnOk result (steps.new ≡ steps.old ++ cases.row_steps_of object.now ids kind relation) }
{
    if stands(object, kind, relation) {
        let width = object.relations()[usize::from(relation)].columns;
        push_inserts(steps, ids, relation, width)
    } else {
        Ok(())
    }
}

fn push_rows(
    steps: &mut Items<Step>,
    object: &Object,
    ids: Ids,
    kind: RowKind,
) -> Result<(), NoMemory>
    ensures steps { OnOk result (steps.new ≡ steps.old ++ cases.row_steps object.now ids kind) }
    ensures checked { IsChecked object.now }
{
    let count = object.relations().len() as u8;
    for relation in 0..count {
        push_rows_of(steps, object, ids, kind, relation)?;
    }
    Ok(())
}

fn greater(one: Option<i64>, other: Option<i64>) -> Option<i64>
    ensures { result ≡ cases.either int_max one other }
{
    match (one, other) {
        (None, other) => other,
        (Some(x), None) => Some(x),
        (Some(x), Some(y)) => Some(x.max(y)),
    }
}

fn lesser(one: Option<i64>, other: Option<i64>) -> Option<i64>
    ensures { result ≡ cases.either int_min one other }
{
    match (one, other) {
        (None, other) => other,
        (Some(x), None) => Some(x),
        (Some(x), Some(y)) => Some(x.min(y)),
    }
}

fn low_limit(invariant: &Invariant, counter: u8) -> Option<i64>
    ensures { result ≡ cases.picked int_max (cases.low_limit counter invariant.now) }
{
    match *invariant {
        Invariant::Low { counter: of, limit } => if of == counter { Some(limit) } else { None },
        Invariant::Reference { .. } => None,
        Invariant::Unique { .. } => None,
        Invariant::High { .. } => None,
    }
}

fn high_limit(invariant: &Invariant, counter: u8) -> Option<i64>
    ensures { result ≡ cases.picked int_min (cases.high_limit counter invariant.now) }
{
    match *invariant {
        Invariant::High { counter: of, limit } => if of == counter { Some(limit) } else { None },
        Invariant::Reference { .. } => None,
        Invariant::Unique { .. } => None,
        Invariant::Low { .. } => None,
    }
}

fn greatest_low(invariants: &[Invariant], counter: u8) -> Option<i64>
    ensures { result ≡ cases.greatest_low invariants.now counter }
{
    let mut greatest = None;
    for invariant in invariants {
        greatest = greater(greatest, low_limit(invariant, counter));
    }
    greatest
}

fn least_high(invariants: &[Invariant], counter: u8) -> Option<i64>
    ensures { result ≡ cases.least_high invariants.now counter }
{
    let mut least = None;
    for invariant in invariants {
        least = lesser(least, high_limit(invariant, counter));
    }
    least
}

/// The value, or 0 where its magnitude is above 2^50.
fn small_or_0(value: i128) -> i128
    ensures is { result ≡ cases.small_or_0 value }
    ensures small { nat_abs result ≤ 2 ^ 50 }
{
    if value.unsigned_abs() <= MAX_VALUE {
        value
    } else {
        0
    }
}

/// The value next to a limit, and 0 where there is none.
fn beside(by: i8, limit: Option<i64>) -> i128
    ensures { result ≡ cases.beside by limit }
{
    match limit {
        None => 0,
        Some(limit) => small_or_0(i128::from(limit) + i128::from(by)),
    }
}

fn value_by(object: &Object, kind: CounterKind, counter: u8) -> i128
    ensures { result ≡ cases.value_by object.now kind counter }
{
    match kind {
        CounterKind::Zero => 0,
        CounterKind::AboveLow => beside(1, greatest_low(object.invariants(), counter)),
        CounterKind::BelowHigh => beside(-1, least_high(object.invariants(), counter)),
    }
}

pub(crate) fn counter_at(object: &Object, counter: u8) -> &Counter
    requires { counter < length object.now.counters }
    ensures { slice_get object.now.counters counter ≡ Some result.now }
{
    &object.counters()[usize::from(counter)]
}

fn change_of(object: &Object, kind: CounterKind, counter: u8, key: u64) -> Step
    ensures { result ≡ Change counter key (cases.value_by object.now kind counter) }
{
    Step::Change {
        counter,
        key,
        by: value_by(object, kind, counter),
    }
}

/// Puts the changes of one counter last.
fn push_values_of(
    steps: &mut Items<Step>,
    object: &Object,
    ids: Ids,
    kind: CounterKind,
    counter: u8,
) -> Result<(), NoMemory>
    requires { counter < length object.now.counters }
    ensures { OnOk result (steps.new ≡ steps.old ++ cases.value_steps_of object.now ids kind counter) }
{
    if counter_at(object, counter).keyed {
        let at_c = change_of(object, kind, counter, ids.c);
        let at_d = change_of(object, kind, counter, ids.d);
        steps.extend(&[at_c, at_d])
    } else {
        steps.push(change_of(object, kind, counter, 0))
    }
}

fn push_values(
    steps: &mut Items<Step>,
    object: &Object,
    ids: Ids,
    kind: CounterKind,
) -> Result<(), NoMemory>
    ensures { OnOk result (steps.new ≡ steps.old ++ cases.value_steps object.now ids kind) }
{
    let count = object.counters().len() as u8;
    for counter in 0..count {
        push_values_of(steps, object, ids, kind, counter)?;
    }
    Ok(())
}

/// The steps that make the state of a kind of the opening state.
pub(crate) fn state_steps(
    alloc: Global,
    object: &Object,
    ids: Ids,
    kinds: Kinds,
) -> Result<Items<Step>, NoMemory>
    ensures steps { IfOk result (λ steps. steps ≡ cases.state_steps object.now ids kinds) }
    ensures few { IfOk result (λ steps. length steps ≤ MAX_STEPS) }
    ensures small { IfOk result (λ steps. AllByRecursion (IsWithin (2 ^ 50)) steps) }
{
    let mut steps = Items::new(alloc);
    push_rows(&mut steps, object, ids, kinds.rows)?;
    push_values(&mut steps, object, ids, kinds.counters)?;
    Ok(steps)
}

/// What the steps make of the opening state.
pub(crate) fn made(alloc: Global, object: &Object, steps: &[Step]) -> Result<State, NoMemory>
    requires few { length steps.now ≤ MAX_STEPS }
    requires small { AllByRecursion (IsWithin (2 ^ 50)) steps.now }
    ensures made { IfOk result (λ state. state.content ≡ after_steps steps.now opening) }
    ensures opened { IfOk result (λ state. state.invariants ≡ object.now.invariants) }
    ensures values { IfOk result (λ state. (c k : ℕ) → nat_abs (value state.content c k) ≤ 2 ^ 60) }
{
    let mut state = State::open(alloc, object)?;
    for step in steps {
        let net = Net::new(&[*step]).unwrap();
        state.apply_net(&net)?;
    }
    Ok(state)
}
