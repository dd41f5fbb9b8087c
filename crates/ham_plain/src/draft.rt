//! An object that is read line by line.

ghost use Rattle.std.specs.Prelude.{◌≡◌, Some};
ghost use Rattle.ham_plain.specs.declared.line.PlainLine.TheVariants as lines;
ghost use Rattle.ham_forms.specs.Words.{Finds};
ghost use Rattle.ham_plain.specs.Drafts as drafts;

use crate::line::PlainLine;
use ham_check::{Raw, RawInvariant, RawMethod, RawPart, RawRelation};
use ham_forms::Unread;
use ham_lists::Items;
use ham_syntax::{Counter, Name, Param};
use std::alloc::Global;

/// What stands before the methods.
#[derive(Debug, Drop)]
pub struct Front {
    pub relations: Items<RawRelation>,
    pub counters: Items<Counter>,
    pub invariants: Items<RawInvariant>,
}

/// What is read of an object, up to a line.
#[derive(Debug, Drop)]
pub enum Draft {
    /// No line is read.
    Nothing,
    /// The opening line is, and no method.
    Head(Front),
    /// The last method is apart, since more of its lines may come.
    Body(Raw, RawMethod),
    /// The last line is read.
    Whole(Raw),
}

impl Draft {
    /// With one line more.
    #[tactic(auto, unfolding(crate::specs::Drafts::draft_with))]
    pub fn with(self, alloc: Global, line: PlainLine) -> Result<Draft, Unread>
        ensures { Finds result (drafts.draft_with self line) }
    {
        match self {
            Draft::Nothing => opened_with(alloc, line),
            Draft::Head(front) => front_with(alloc, front, line),
            Draft::Body(raw, method) => body_with(alloc, raw, method, line),
            Draft::Whole(_) => Err(Unread::Nothing),
        }
    }
}

fn opened_with(alloc: Global, line: PlainLine) -> Result<Draft, Unread>
    ensures { Finds result (drafts.opened_with line) }
{
    match line {
        PlainLine::Opening => Ok(Draft::Head(Front {
            relations: Items::new(alloc),
            counters: Items::new(alloc),
            invariants: Items::new(alloc),
        })),
        _ => Err(Unread::Nothing),
    }
}

fn front_with(alloc: Global, front: Front, line: PlainLine) -> Result<Draft, Unread>
    ensures { Finds result (drafts.front_with front line) }
{
    match line {
        PlainLine::Relation(relation) => with_relation(front, relation),
        PlainLine::Counter(counter) => with_counter(front, counter),
        PlainLine::Invariant(invariant) => with_invariant(front, invariant),
        PlainLine::Method(name) => Ok(Draft::Body(
            without_methods(alloc, front),
            method_named(alloc, name),
        )),
        PlainLine::End => Ok(Draft::Whole(without_methods(alloc, front))),
        _ => Err(Unread::Nothing),
    }
}

fn with_relation(front: Front, relation: RawRelation) -> Result<Draft, Unread>
    ensures { Finds result (drafts.front_with front (lines.Relation relation)) }
{
    if !front.counters.items().is_empty() || !front.invariants.items().is_empty() {
        return Err(Unread::Nothing);
    }
    let mut front = front;
    front.relations.push(relation)?;
    Ok(Draft::Head(front))
}

fn with_counter(front: Front, counter: Counter) -> Result<Draft, Unread>
    ensures { Finds result (drafts.front_with front (lines.Counter counter)) }
{
    if !front.invariants.items().is_empty() {
        return Err(Unread::Nothing);
    }
    let mut front = front;
    front.counters.push(counter)?;
    Ok(Draft::Head(front))
}

fn with_invariant(front: Front, invariant: RawInvariant) -> Result<Draft, Unread>
    ensures { Finds result (drafts.front_with front (lines.Invariant invariant)) }
{
    let mut front = front;
    front.invariants.push(invariant)?;
    Ok(Draft::Head(front))
}

fn body_with(alloc: Global, raw: Raw, method: RawMethod, line: PlainLine) -> Result<Draft, Unread>
    ensures { Finds result (drafts.body_with raw method line) }
{
    match line {
        PlainLine::Param(param) => Ok(Draft::Body(raw, with_param(method, param)?)),
        PlainLine::Guard(guard) => Ok(Draft::Body(raw, with_guard(method, guard)?)),
        PlainLine::Effect(effect) => Ok(Draft::Body(raw, with_effect(method, effect)?)),
        PlainLine::Method(name) => Ok(Draft::Body(
            and_method(raw, method)?,
            method_named(alloc, name),
        )),
        PlainLine::End => Ok(Draft::Whole(and_method(raw, method)?)),
        _ => Err(Unread::Nothing),
    }
}

fn with_param(method: RawMethod, param: Param) -> Result<RawMethod, Unread>
    ensures { Finds result (drafts.with_param method param) }
{
    if !method.guards.items().is_empty() || !method.effects.items().is_empty() {
        return Err(Unread::Nothing);
    }
    let mut method = method;
    method.params.push(param)?;
    Ok(method)
}

fn with_guard(method: RawMethod, guard: RawPart) -> Result<RawMethod, Unread>
    ensures { Finds result (drafts.with_guard method guard) }
{
    if !method.effects.items().is_empty() {
        return Err(Unread::Nothing);
    }
    let mut method = method;
    method.guards.push(guard)?;
    Ok(method)
}

fn with_effect(method: RawMethod, effect: RawPart) -> Result<RawMethod, Unread>
    ensures { Finds result (Some (drafts.with_effect method effect)) }
{
    let mut method = method;
    method.effects.push(effect)?;
    Ok(method)
}

fn and_method(raw: Raw, method: RawMethod) -> Result<Raw, Unread>
    ensures { Finds result (Some (drafts.and_method raw method)) }
{
    let mut raw = raw;
    raw.methods.push(method)?;
    Ok(raw)
}

fn without_methods(alloc: Global, front: Front) -> Raw
    ensures { result ≡ drafts.without_methods front }
{
    Raw {
        relations: front.relations,
        counters: front.counters,
        invariants: front.invariants,
        methods: Items::new(alloc),
    }
}

fn method_named(alloc: Global, name: Name) -> RawMethod
    ensures { result ≡ drafts.method_named name }
{
    RawMethod {
        name,
        params: Items::new(alloc),
        guards: Items::new(alloc),
        effects: Items::new(alloc),
    }
}
