//! Guards and effects, one at a time: their faults, and their names as numbers.

ghost use Rattle.std.specs.Prelude.{◌≡◌, ◌<◌, length, map, Some, IfOk};
ghost use Rattle.ham_syntax.specs.Typed.{AreTyped, IsTypedEffect, IsTypedGuard, IsTypedKey, IsTypedTerm};
ghost use Rattle.ham_check.specs.Faults as faults;
ghost use Rattle.ham_check.specs.Resolved as resolved;

use crate::raw::{IllKind, RawPart, RawTerm, Verb};
use crate::scope::Scope;
use ham_syntax::{Effect, Guard, Term, Terms};

/// What a part says, on the relation that it names.
#[derive(Clone, Copy)]
struct OnRelation {
    relation: u8,
    terms: Terms,
}

/// What a part says, on the counter that it names.
#[derive(Clone, Copy)]
struct OnCounter {
    counter: u8,
    key: Option<Term>,
    amount: Term,
}

impl Scope<'_> {
    /// The terms on the relation at this place.
    fn row(&self, any: bool, terms: &[RawTerm], relation: u8) -> Result<Terms, IllKind>
        ensures resolved { result
            ≡ faults.first_fault_or
            (faults.on_relation_ills any self.now.declared.relations.now self.now.params.now terms.now (Some relation))
            (map (resolved.resolved_term self.now.params.now) terms.now) }
        ensures typed { IfOk result AreTyped }
    {
        if terms.len() != usize::from(self.declared.width(relation)) {
            return Err(IllKind::BadArity);
        }
        self.ids(any, terms)
    }

    fn on_relation(&self, any: bool, part: &RawPart) -> Result<OnRelation, IllKind>
        ensures resolved { result
            ≡ faults.first_fault_or
            (faults.relation_part_ills any self.now.declared.relations.now self.now.declared.counters.now self.now.params.now part.now)
            (record {
              relation = resolved.relation_number self.now.declared.relations.now part.now.name;
              terms = map (resolved.resolved_term self.now.params.now) part.now.terms;
            }) }
        ensures typed { IfOk result (λ p. AreTyped p.terms) }
    {
        let relation = self.declared.relation(&part.name)?;
        let terms = self.row(any, part.terms.items(), relation)?;
        Ok(OnRelation { relation, terms })
    }

    /// The terms on the counter at this place.
    fn change(&self, terms: &[RawTerm], counter: u8) -> Result<(Option<Term>, Term), IllKind>
        requires { counter < length self.now.declared.counters.now }
        ensures resolved { result
            ≡ faults.first_fault_or
            (faults.on_counter_ills self.now.params.now terms.now (faults.counter_at self.now.declared.counters.now (Some counter)))
            (resolved.resolved_key self.now.params.now terms.now, resolved.resolved_amount self.now.params.now terms.now) }
        ensures typed { IfOk result (λ r. IsTypedKey r.0 × IsTypedTerm r.1) }
    {
        self.amounts(self.declared.counters[counter as usize].keyed, terms)
    }

    fn on_counter(&self, part: &RawPart) -> Result<OnCounter, IllKind>
        ensures resolved { let terms = part.now.terms in
            result
            ≡ faults.first_fault_or
            (faults.counter_part_ills self.now.declared.relations.now self.now.declared.counters.now self.now.params.now part.now)
            (record {
              counter = resolved.counter_number self.now.declared.counters.now part.now.name;
              key = resolved.resolved_key self.now.params.now terms;
              amount = resolved.resolved_amount self.now.params.now terms;
            }) }
        ensures typed { IfOk result (λ p. IsTypedKey p.key × IsTypedTerm p.amount) }
    {
        let counter = self.declared.counter(&part.name)?;
        let (key, amount) = self.change(part.terms.items(), counter)?;
        Ok(OnCounter {
            counter,
            key,
            amount,
        })
    }
}

pub(crate) fn resolve_guard(scope: &Scope, part: &RawPart) -> Result<Guard, IllKind>
    ensures resolved { result
        ≡ faults.first_fault_or
        (faults.part_ills faults.is_guard_verb scope.now.declared.relations.now scope.now.declared.counters.now scope.now.params.now part.now)
        (resolved.resolved_guard scope.now.declared.relations.now scope.now.declared.counters.now scope.now.params.now part.now) }
    ensures typed { IfOk result IsTypedGuard }
{
    match part.verb {
        Verb::Present => {
            let OnRelation { relation, terms } = scope.on_relation(true, part)?;
            Ok(Guard::Present { relation, terms })
        }
        Verb::Absent => {
            let OnRelation { relation, terms } = scope.on_relation(true, part)?;
            Ok(Guard::Absent { relation, terms })
        }
        Verb::AtLeast => {
            let on = scope.on_counter(part)?;
            Ok(Guard::AtLeast {
                counter: on.counter,
                key: on.key,
                amount: on.amount,
            })
        }
        Verb::AtMost => {
            let on = scope.on_counter(part)?;
            Ok(Guard::AtMost {
                counter: on.counter,
                key: on.key,
                amount: on.amount,
            })
        }
        Verb::Insert | Verb::Delete | Verb::Add | Verb::Subtract => Err(IllKind::WrongKind),
    }
}

pub(crate) fn resolve_effect(scope: &Scope, part: &RawPart) -> Result<Effect, IllKind>
    ensures resolved { result
        ≡ faults.first_fault_or
        (faults.part_ills faults.is_effect_verb scope.now.declared.relations.now scope.now.declared.counters.now scope.now.params.now part.now)
        (resolved.resolved_effect scope.now.declared.relations.now scope.now.declared.counters.now scope.now.params.now part.now) }
    ensures typed { IfOk result IsTypedEffect }
{
    match part.verb {
        Verb::Insert => {
            let OnRelation { relation, terms } = scope.on_relation(false, part)?;
            Ok(Effect::Insert { relation, terms })
        }
        Verb::Delete => {
            let OnRelation { relation, terms } = scope.on_relation(true, part)?;
            Ok(Effect::Delete { relation, terms })
        }
        Verb::Add => {
            let on = scope.on_counter(part)?;
            Ok(Effect::Add {
                counter: on.counter,
                key: on.key,
                amount: on.amount,
            })
        }
        Verb::Subtract => {
            let on = scope.on_counter(part)?;
            Ok(Effect::Subtract {
                counter: on.counter,
                key: on.key,
                amount: on.amount,
            })
        }
        Verb::Present | Verb::Absent | Verb::AtLeast | Verb::AtMost => Err(IllKind::WrongKind),
    }
}
