//! Relations, counters and methods, one at a time: the tests of an entry beside those before it.

ghost use Rattle.std.specs.Prelude.{◌≡◌, ◌≢◌, ◌≤◌, length, nat_eq, IsTrue, IfOk};
ghost use Rattle.std.specs.List.{list_any};
ghost use Rattle.std.specs.Cmp.Lexicographic.{pointwise};
ghost use Rattle.ham_syntax.specs.Names.{is_name};
ghost use Rattle.ham_check.specs.Faults as faults;

use crate::raw::{IllKind, RawMethod, RawRelation};
use ham_syntax::limits::{
    MAX_COLUMNS, MAX_COUNTERS, MAX_METHODS, MAX_PARAMS, MAX_PARTS, MAX_RELATIONS,
};
use ham_syntax::{Counter, Name, Param, Relation};

fn names_raw_relation(relations: &[RawRelation], name: &Name) -> bool
    ensures { result ≡ list_any (λ r. pointwise nat_eq name.now r.name) relations.now }
{
    relations.iter().any(|relation| *name == relation.name)
}

fn names_relation(relations: &[Relation], name: &Name) -> bool
    ensures { result ≡ list_any (λ r. pointwise nat_eq name.now r.name) relations.now }
{
    relations.iter().any(|relation| *name == relation.name)
}

fn names_counter(counters: &[Counter], name: &Name) -> bool
    ensures { result ≡ list_any (λ c. pointwise nat_eq name.now c.name) counters.now }
{
    counters.iter().any(|counter| *name == counter.name)
}

fn names_method(methods: &[RawMethod], name: &Name) -> bool
    ensures { result ≡ list_any (λ m. pointwise nat_eq name.now m.name) methods.now }
{
    methods.iter().any(|method| *name == method.name)
}

fn names_param(params: &[Param], name: &Name) -> bool
    ensures { result ≡ list_any (λ p. pointwise nat_eq name.now p.name) params.now }
{
    params.iter().any(|param| *name == param.name)
}

pub(crate) fn check_relation(
    before: &[RawRelation],
    relation: &RawRelation,
) -> Result<Relation, IllKind>
    ensures checked { result ≡ faults.first_fault_or (faults.relation_ills before.now relation.now) (faults.relation_of relation.now) }
    ensures room { IfOk result (λ _. length before.now ≢ MAX_RELATIONS) }
    ensures named { IfOk result (λ r. IsTrue (is_name r.name)) }
{
    if before.len() == MAX_RELATIONS {
        return Err(IllKind::TooMany);
    }
    if names_raw_relation(before, &relation.name) {
        return Err(IllKind::TwiceNamed);
    }
    if relation.columns == 0 || relation.columns > MAX_COLUMNS as u64 {
        return Err(IllKind::BadArity);
    }
    Ok(Relation {
        name: relation.name.known(),
        columns: relation.columns as u8,
    })
}

pub(crate) fn check_counter(
    relations: &[Relation],
    before: &[Counter],
    counter: &Counter,
) -> Result<(), IllKind>
    ensures checked { result ≡ faults.first_fault_or (faults.counter_ills relations.now before.now counter.now) tt }
    ensures room { IfOk result (λ _. length before.now ≢ MAX_COUNTERS) }
{
    if before.len() == MAX_COUNTERS {
        return Err(IllKind::TooMany);
    }
    if names_relation(relations, &counter.name) || names_counter(before, &counter.name) {
        return Err(IllKind::TwiceNamed);
    }
    Ok(())
}

fn has_twins(params: &[Param]) -> bool
    ensures { result ≡ faults.has_twins params.now }
{
    match params {
        [] => false,
        [first, rest @ ..] => names_param(rest, &first.name) || has_twins(rest),
    }
}

fn check_shape(method: &RawMethod) -> Result<(), IllKind>
    ensures checked { result ≡ faults.first_fault_or (faults.shape_ills method.now) tt }
    ensures few_params { IfOk result (λ _. length method.now.params ≤ MAX_PARAMS) }
    ensures few_guards { IfOk result (λ _. length method.now.guards ≤ MAX_PARTS) }
    ensures few_effects { IfOk result (λ _. length method.now.effects ≤ MAX_PARTS) }
{
    if method.params.items().len() > MAX_PARAMS {
        return Err(IllKind::TooMany);
    }
    if has_twins(method.params.items()) {
        return Err(IllKind::TwiceNamed);
    }
    if method.guards.items().len() > MAX_PARTS {
        return Err(IllKind::TooMany);
    }
    if method.effects.items().len() > MAX_PARTS {
        return Err(IllKind::TooMany);
    }
    Ok(())
}

pub(crate) fn check_method(before: &[RawMethod], method: &RawMethod) -> Result<(), IllKind>
    ensures checked { result ≡ faults.first_fault_or (faults.method_ills before.now method.now) tt }
    ensures room { IfOk result (λ _. length before.now ≢ MAX_METHODS) }
    ensures few_params { IfOk result (λ _. length method.now.params ≤ MAX_PARAMS) }
    ensures few_guards { IfOk result (λ _. length method.now.guards ≤ MAX_PARTS) }
    ensures few_effects { IfOk result (λ _. length method.now.effects ≤ MAX_PARTS) }
{
    if before.len() == MAX_METHODS {
        return Err(IllKind::TooMany);
    }
    if names_method(before, &method.name) {
        return Err(IllKind::TwiceNamed);
    }
    check_shape(method)
}
