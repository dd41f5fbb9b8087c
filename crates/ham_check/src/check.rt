//! The check of a raw object: its sections, entries and parts in order, up to the first fault.

ghost use Rattle.std.specs.Prelude.{◌≡◌, ◌≢◌, ◌<◌, ◌≤◌, [], Ok, length, map, IsTrue, IfOk};
ghost use Rattle.std.specs.List.{AllByRecursion};
ghost use Rattle.ham_syntax.specs.Checked.{IsRelation};
ghost use Rattle.ham_syntax.specs.Names.{is_name};
ghost use Rattle.ham_syntax.specs.Typed.{IsTypedEffect, IsTypedGuard, IsTypedInvariant, IsTypedMethod};
ghost use Rattle.ham_check.specs.Faults as faults;
ghost use Rattle.ham_check.specs.Resolved as resolved;

use crate::beside::{check_counter, check_method, check_relation};
use crate::declared::Declared;
use crate::invariants::resolve_invariant;
use crate::parts::{resolve_effect, resolve_guard};
use crate::raw::{
    CheckFault, Ill, IllKind, IllPlace, Raw, RawInvariant, RawMethod, RawPart, RawRelation,
};
use crate::scope::Scope;
use ham_syntax::limits::{MAX_COUNTERS, MAX_INVARIANTS, MAX_METHODS, MAX_PARTS, MAX_RELATIONS};
use ham_syntax::{
    Counter, Effect, Guard, Invariant, Items, Method, NoMemory, Object, Param, Relation,
};
use std::alloc::Global;

/// The sections of a raw object, as places number them.
const RELATIONS: u8 = 1;

const COUNTERS: u8 = 2;

const INVARIANTS: u8 = 3;

const METHODS: u8 = 4;

fn placed<T>(at: IllPlace, outcome: Result<T, IllKind>) -> Result<T, CheckFault>
    ensures placed { result ≡ faults.placed at outcome }
    ensures same { IfOk result (λ answer. outcome ≡ Ok answer) }
{
    match outcome {
        Ok(answer) => Ok(answer),
        Err(kind) => Err(CheckFault::Ill(Ill { kind, at })),
    }
}

fn relation_entry(before: &[RawRelation], relation: &RawRelation) -> Result<Relation, CheckFault>
    requires { length before.now ≤ MAX_RELATIONS }
    ensures checks { faults.Checks (faults.relation_faults before.now relation.now) (faults.relation_of relation.now) result }
    ensures room { IfOk result (λ _. length before.now ≢ MAX_RELATIONS) }
    ensures named { IfOk result (λ r. IsTrue (is_name r.name)) }
{
    let at = IllPlace {
        section: RELATIONS,
        entry: before.len() as u32 + 1,
        part: 0,
    };
    placed(at, check_relation(before, relation))
}

fn check_relations(alloc: Global, raw: &[RawRelation]) -> Result<Items<Relation>, CheckFault>
    ensures checks { faults.Checks (faults.entry_faults faults.relation_faults [] raw.now) (map faults.relation_of raw.now) result }
    ensures few { IfOk result (λ relations. length relations ≤ MAX_RELATIONS) }
    ensures each { IfOk result (λ relations. AllByRecursion IsRelation relations) }
    ensures named { IfOk result (AllByRecursion (λ r. IsTrue (is_name r.name))) }
{
    let mut relations = Items::new(alloc);
    for (i, relation) in raw.iter().enumerate() {
        relations.push(relation_entry(&raw[..i], relation)?)?;
    }
    Ok(relations)
}

fn counter_entry(
    relations: &[Relation],
    before: &[Counter],
    counter: &Counter,
) -> Result<Counter, CheckFault>
    requires { length before.now ≤ MAX_COUNTERS }
    ensures checks { faults.Checks (faults.counter_faults relations.now before.now counter.now) counter.now result }
    ensures room { IfOk result (λ _. length before.now ≢ MAX_COUNTERS) }
    ensures named { IfOk result (λ c. IsTrue (is_name c.name)) }
{
    let at = IllPlace {
        section: COUNTERS,
        entry: before.len() as u32 + 1,
        part: 0,
    };
    placed(at, check_counter(relations, before, counter))?;
    Ok(Counter {
        name: counter.name.known(),
        keyed: counter.keyed,
    })
}

fn check_counters(
    alloc: Global,
    relations: &[Relation],
    raw: &[Counter],
) -> Result<Items<Counter>, CheckFault>
    ensures checks { faults.Checks (faults.entry_faults (faults.counter_faults relations.now) [] raw.now) raw.now result }
    ensures few { IfOk result (λ counters. length counters ≤ MAX_COUNTERS) }
    ensures named { IfOk result (AllByRecursion (λ c. IsTrue (is_name c.name))) }
{
    let mut counters = Items::new(alloc);
    for (i, counter) in raw.iter().enumerate() {
        counters.push(counter_entry(relations, &raw[..i], counter)?)?;
    }
    Ok(counters)
}

fn invariant_entry(
    declared: &Declared,
    before: &[RawInvariant],
    invariant: &RawInvariant,
) -> Result<Invariant, CheckFault>
    requires before { length before.now ≤ MAX_INVARIANTS }
    ensures checks { faults.Checks
        (faults.invariant_faults declared.now.relations.now declared.now.counters.now before.now invariant.now)
        (resolved.resolved_invariant declared.now.relations.now declared.now.counters.now invariant.now)
        result }
    ensures room { IfOk result (λ _. length before.now ≢ MAX_INVARIANTS) }
    ensures typed { IfOk result IsTypedInvariant }
{
    let at = IllPlace {
        section: INVARIANTS,
        entry: before.len() as u32 + 1,
        part: 0,
    };
    placed(at, resolve_invariant(declared, before, invariant))
}

fn resolve_invariants(
    alloc: Global,
    declared: &Declared,
    raw: &[RawInvariant],
) -> Result<Items<Invariant>, CheckFault>
    ensures checks { faults.Checks
        (faults.entry_faults (faults.invariant_faults declared.now.relations.now declared.now.counters.now) [] raw.now)
        (map (resolved.resolved_invariant declared.now.relations.now declared.now.counters.now) raw.now)
        result }
    ensures typed { IfOk result (AllByRecursion IsTypedInvariant) }
{
    let mut invariants = Items::new(alloc);
    for (i, invariant) in raw.iter().enumerate() {
        invariants.push(invariant_entry(declared, &raw[..i], invariant)?)?;
    }
    Ok(invariants)
}

fn guard_entry(
    scope: &Scope,
    entry: u32,
    before: &[RawPart],
    part: &RawPart,
) -> Result<Guard, CheckFault>
    requires before { length before.now ≤ MAX_PARTS }
    ensures checks { faults.Checks
        (faults.guard_faults scope.now.declared.relations.now scope.now.declared.counters.now entry scope.now.params.now before.now part.now)
        (resolved.resolved_guard scope.now.declared.relations.now scope.now.declared.counters.now scope.now.params.now part.now)
        result }
    ensures typed { IfOk result IsTypedGuard }
{
    let at = IllPlace {
        section: METHODS,
        entry,
        part: before.len() as u8 + 1,
    };
    placed(at, resolve_guard(scope, part))
}

fn resolve_guards(
    alloc: Global,
    scope: &Scope,
    entry: u32,
    raw: &[RawPart],
) -> Result<Items<Guard>, CheckFault>
    requires raw { length raw.now ≤ MAX_PARTS }
    ensures checks { faults.Checks
        (faults.entry_faults (faults.guard_faults scope.now.declared.relations.now scope.now.declared.counters.now entry scope.now.params.now) [] raw.now)
        (map (resolved.resolved_guard scope.now.declared.relations.now scope.now.declared.counters.now scope.now.params.now) raw.now)
        result }
    ensures typed { IfOk result (AllByRecursion IsTypedGuard) }
{
    let mut guards = Items::new(alloc);
    for (i, part) in raw.iter().enumerate() {
        guards.push(guard_entry(scope, entry, &raw[..i], part)?)?;
    }
    Ok(guards)
}

fn effect_entry(
    scope: &Scope,
    entry: u32,
    before: &[RawPart],
    part: &RawPart,
) -> Result<Effect, CheckFault>
    requires before { length before.now ≤ MAX_PARTS }
    ensures checks { faults.Checks
        (faults.effect_faults scope.now.declared.relations.now scope.now.declared.counters.now entry scope.now.params.now before.now part.now)
        (resolved.resolved_effect scope.now.declared.relations.now scope.now.declared.counters.now scope.now.params.now part.now)
        result }
    ensures typed { IfOk result IsTypedEffect }
{
    let at = IllPlace {
        section: METHODS,
        entry,
        part: (before.len() + MAX_PARTS) as u8 + 1,
    };
    placed(at, resolve_effect(scope, part))
}

fn resolve_effects(
    alloc: Global,
    scope: &Scope,
    entry: u32,
    raw: &[RawPart],
) -> Result<Items<Effect>, CheckFault>
    requires raw { length raw.now ≤ MAX_PARTS }
    ensures checks { faults.Checks
        (faults.entry_faults (faults.effect_faults scope.now.declared.relations.now scope.now.declared.counters.now entry scope.now.params.now) [] raw.now)
        (map (resolved.resolved_effect scope.now.declared.relations.now scope.now.declared.counters.now scope.now.params.now) raw.now)
        result }
    ensures typed { IfOk result (AllByRecursion IsTypedEffect) }
{
    let mut effects = Items::new(alloc);
    for (i, part) in raw.iter().enumerate() {
        effects.push(effect_entry(scope, entry, &raw[..i], part)?)?;
    }
    Ok(effects)
}

fn named_params(alloc: Global, raw: &[Param]) -> Result<Items<Param>, NoMemory>
    ensures same { IfOk result (λ params. params ≡ raw.now) }
    ensures named { IfOk result (AllByRecursion (λ p. IsTrue (is_name p.name))) }
{
    let mut params = Items::new(alloc);
    for param in raw {
        params.push(Param {
            name: param.name.known(),
            kind: param.kind,
        })?;
    }
    Ok(params)
}

fn method_entry(
    alloc: Global,
    declared: &Declared,
    before: &[RawMethod],
    raw: &RawMethod,
) -> Result<Method, CheckFault>
    requires before { length before.now ≤ MAX_METHODS }
    ensures checks { faults.Checks
        (faults.method_faults declared.now.relations.now declared.now.counters.now before.now raw.now)
        (resolved.resolved_method declared.now.relations.now declared.now.counters.now raw.now)
        result }
    ensures room { IfOk result (λ _. length before.now ≢ MAX_METHODS) }
    ensures typed { IfOk result IsTypedMethod }
{
    let entry = before.len() as u32 + 1;
    let at = IllPlace {
        section: METHODS,
        entry,
        part: 0,
    };
    placed(at, check_method(before, raw))?;
    let params = named_params(alloc, raw.params.items())?;
    let scope = Scope {
        declared: *declared,
        params: params.items(),
    };
    let guards = resolve_guards(alloc, &scope, entry, raw.guards.items())?;
    let effects = resolve_effects(alloc, &scope, entry, raw.effects.items())?;
    Ok(Method {
        name: raw.name.known(),
        params,
        guards,
        effects,
    })
}

fn resolve_methods(
    alloc: Global,
    declared: &Declared,
    raw: &[RawMethod],
) -> Result<Items<Method>, CheckFault>
    ensures checks { faults.Checks
        (faults.entry_faults (faults.method_faults declared.now.relations.now declared.now.counters.now) [] raw.now)
        (map (resolved.resolved_method declared.now.relations.now declared.now.counters.now) raw.now)
        result }
    ensures typed { IfOk result (AllByRecursion IsTypedMethod) }
{
    let mut methods = Items::new(alloc);
    for (i, method) in raw.iter().enumerate() {
        methods.push(method_entry(alloc, declared, &raw[..i], method)?)?;
    }
    Ok(methods)
}

/// Checks a raw object and resolves its names. `Ill` has the first fault. Relations are tested first, then counters,
/// invariants and methods: each beside those before it, then its guards, then its effects, and the terms of each from
/// the left.
pub fn check_object(alloc: Global, raw: &Raw) -> Result<Object, CheckFault>
    ensures { faults.Checks (faults.faults raw.now) (resolved.resolved raw.now) result }
{
    let relations = check_relations(alloc, raw.relations.items())?;
    let counters = check_counters(alloc, relations.items(), raw.counters.items())?;
    let declared = Declared {
        relations: relations.items(),
        counters: counters.items(),
    };
    let invariants = resolve_invariants(alloc, &declared, raw.invariants.items())?;
    let methods = resolve_methods(alloc, &declared, raw.methods.items())?;
    Ok(Object::of_parts(alloc, relations, counters, invariants, methods)?)
}
