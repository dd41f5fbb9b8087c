//! The plain form of an object.

ghost use Rattle.std.specs.Prelude.{◌≡◌, ◌∷◌, ◌++◌, [], codes, map, IfOk, OnOk};
ghost use Rattle.std.specs.List.{flat_map};
ghost use Rattle.ham_plain.specs.declared.line.PlainLine.TheVariants as lines;
ghost use Rattle.std.specs.Fmt.{decimal, signed_decimal};
ghost use Rattle.ham_syntax.specs.Checked.{IsChecked};
ghost use Rattle.ham_plain.specs.Plain.{line_text, term_word};
ghost use Rattle.ham_plain.specs.Written as written;
ghost use Rattle.ham_plain.specs.Printing.{line_from, method_text};

use crate::spelling::{push_amount, push_flag, push_kind, push_limit, push_numbers, push_terms};
use ham_lists::{Bytes, NoMemory};
use ham_syntax::{Counter, Effect, Guard, Invariant, Method, Object, Param, Relation, Term};
use ham_text::{push_line_end, push_number, push_word};
use std::alloc::Global;

/// The plain form of an object.
pub fn print_plain(alloc: Global, object: &Object) -> Result<Bytes, NoMemory>
    ensures form { IfOk result (λ bytes. bytes ≡ written.plain_of object.now) }
    ensures checked { OnOk result (IsChecked object.now) }
{
    let mut text = Bytes::of(alloc, b"hamsaz object 1\n")?;
    push_relations(&mut text, object.relations())?;
    push_counters(&mut text, object.counters())?;
    push_invariants(&mut text, object, object.invariants())?;
    push_methods(&mut text, object, object.methods())?;
    text.extend(b"end\n")?;
    Ok(text)
}

fn push_relations(text: &mut Bytes, relations: &[Relation]) -> Result<(), NoMemory>
    ensures { OnOk result (text.new ≡ text.old ++ flat_map (λ r. line_text (lines.Relation (written.written_relation r))) relations.now) }
{
    for relation in relations {
        push_relation(text, relation)?;
    }
    Ok(())
}

fn push_relation(text: &mut Bytes, relation: &Relation) -> Result<(), NoMemory>
    ensures { OnOk result (text.new ≡ text.old ++ line_text (lines.Relation (written.written_relation relation.now))) }
{
    text.extend(b"relation")?;
    push_word(text, relation.name.bytes())?;
    push_number(text, u64::from(relation.columns))?;
    push_line_end(text)
}

fn push_counters(text: &mut Bytes, counters: &[Counter]) -> Result<(), NoMemory>
    ensures { OnOk result (text.new ≡ text.old ++ flat_map (λ c. line_text (lines.Counter c)) counters.now) }
{
    for counter in counters {
        push_counter(text, counter)?;
    }
    Ok(())
}

fn push_counter(text: &mut Bytes, counter: &Counter) -> Result<(), NoMemory>
    ensures { OnOk result (text.new ≡ text.old ++ line_text (lines.Counter counter.now)) }
{
    text.extend(b"counter")?;
    push_word(text, counter.name.bytes())?;
    push_flag(text, counter.keyed)?;
    push_line_end(text)
}

fn push_invariants(
    text: &mut Bytes,
    object: &Object,
    invariants: &[Invariant],
) -> Result<(), NoMemory>
    ensures { OnOk result (text.new ≡ text.old ++ flat_map (λ i. line_text (lines.Invariant (written.written_invariant object.now i))) invariants.now) }
{
    for invariant in invariants {
        push_invariant(text, object, invariant)?;
    }
    Ok(())
}

fn push_invariant(text: &mut Bytes, object: &Object, invariant: &Invariant) -> Result<(), NoMemory>
    ensures { OnOk result (text.new ≡ text.old ++ line_text (lines.Invariant (written.written_invariant object.now invariant.now))) }
{
    match invariant {
        Invariant::Reference { from, columns, to } => {
            let from = relation_name(object, *from);
            let to = relation_name(object, *to);
            push_reference(text, from, to, columns.items())
        }
        Invariant::Unique { relation, columns } => {
            let relation = relation_name(object, *relation);
            push_unique(text, relation, columns.items())
        }
        Invariant::Low { counter, limit } => {
            let counter = counter_name(object, *counter);
            push_limited(text, b"invariant low", counter, *limit)
        }
        Invariant::High { counter, limit } => {
            let counter = counter_name(object, *counter);
            push_limited(text, b"invariant high", counter, *limit)
        }
    }
}

fn push_reference(text: &mut Bytes, from: &[u8], to: &[u8], columns: &[u8]) -> Result<(), NoMemory>
    ensures { OnOk result (text.new ≡ text.old ++ line_from (codes "invariant reference") (from.now ∷ to.now ∷ map decimal columns.now)) }
{
    text.extend(b"invariant reference")?;
    push_word(text, from)?;
    push_columns(text, to, columns)
}

fn push_unique(text: &mut Bytes, relation: &[u8], columns: &[u8]) -> Result<(), NoMemory>
    ensures { OnOk result (text.new ≡ text.old ++ line_from (codes "invariant unique") (relation.now ∷ map decimal columns.now)) }
{
    text.extend(b"invariant unique")?;
    push_columns(text, relation, columns)
}

/// The end of a line: a relation and columns.
#[tactic(auto, using(crate::proofs::Printed::columns_line))]
fn push_columns(text: &mut Bytes, relation: &[u8], columns: &[u8]) -> Result<(), NoMemory>
    ensures { OnOk result (text.new ≡ text.old ++ line_from [] (relation.now ∷ map decimal columns.now)) }
{
    push_word(text, relation)?;
    push_numbers(text, columns)?;
    push_line_end(text)
}

fn push_limited(text: &mut Bytes, start: &[u8], counter: &[u8], limit: i64) -> Result<(), NoMemory>
    ensures { OnOk result (text.new ≡ text.old ++ line_from start.now (counter.now ∷ signed_decimal limit ∷ [])) }
{
    text.extend(start)?;
    push_word(text, counter)?;
    push_limit(text, limit)?;
    push_line_end(text)
}

/// The name of the relation with this number, which a checked object has.
fn relation_name(object: &Object, relation: u8) -> &[u8]
    ensures { result.now ≡ written.relation_name object.now relation }
{
    match object.relations().get(relation as usize) {
        Some(relation) => relation.name.bytes(),
        None => &[],
    }
}

/// The name of the counter with this number, which a checked object has.
fn counter_name(object: &Object, counter: u8) -> &[u8]
    ensures { result.now ≡ written.counter_name object.now counter }
{
    match object.counters().get(counter as usize) {
        Some(counter) => counter.name.bytes(),
        None => &[],
    }
}

fn push_methods(text: &mut Bytes, object: &Object, methods: &[Method]) -> Result<(), NoMemory>
    ensures { OnOk result (text.new ≡ text.old ++ flat_map (method_text object.now) methods.now) }
{
    for method in methods {
        push_method(text, object, method)?;
    }
    Ok(())
}

fn push_method(text: &mut Bytes, object: &Object, method: &Method) -> Result<(), NoMemory>
    ensures { OnOk result (text.new ≡ text.old ++ method_text object.now method.now) }
{
    text.extend(b"method")?;
    push_word(text, method.name.bytes())?;
    push_line_end(text)?;
    let params = method.params.items();
    push_params(text, params)?;
    push_guards(text, object, params, method.guards.items())?;
    push_effects(text, object, params, method.effects.items())
}

fn push_params(text: &mut Bytes, params: &[Param]) -> Result<(), NoMemory>
    ensures { OnOk result (text.new ≡ text.old ++ flat_map (λ p. line_text (lines.Param p)) params.now) }
{
    for param in params {
        push_param(text, param)?;
    }
    Ok(())
}

fn push_param(text: &mut Bytes, param: &Param) -> Result<(), NoMemory>
    ensures { OnOk result (text.new ≡ text.old ++ line_text (lines.Param param.now)) }
{
    text.extend(b"param")?;
    push_word(text, param.name.bytes())?;
    push_kind(text, param.kind)?;
    push_line_end(text)
}

fn push_guards(
    text: &mut Bytes,
    object: &Object,
    params: &[Param],
    guards: &[Guard],
) -> Result<(), NoMemory>
    ensures { OnOk result (text.new ≡ text.old ++ flat_map (λ g. line_text (lines.Guard (written.written_guard object.now params.now g))) guards.now) }
{
    for guard in guards {
        push_guard(text, object, params, guard)?;
    }
    Ok(())
}

fn push_guard(
    text: &mut Bytes,
    object: &Object,
    params: &[Param],
    guard: &Guard,
) -> Result<(), NoMemory>
    ensures { OnOk result (text.new ≡ text.old ++ line_text (lines.Guard (written.written_guard object.now params.now guard.now))) }
{
    match guard {
        Guard::Present { relation, terms } => {
            let relation = relation_name(object, *relation);
            push_terms_line(text, b"guard present", relation, params, terms.items())
        }
        Guard::Absent { relation, terms } => {
            let relation = relation_name(object, *relation);
            push_terms_line(text, b"guard absent", relation, params, terms.items())
        }
        Guard::AtLeast {
            counter,
            key,
            amount,
        } => {
            let counter = counter_name(object, *counter);
            push_amount_line(text, b"guard atleast", counter, params, *key, *amount)
        }
        Guard::AtMost {
            counter,
            key,
            amount,
        } => {
            let counter = counter_name(object, *counter);
            push_amount_line(text, b"guard atmost", counter, params, *key, *amount)
        }
    }
}

fn push_terms_line(
    text: &mut Bytes,
    start: &[u8],
    relation: &[u8],
    params: &[Param],
    terms: &[Term],
) -> Result<(), NoMemory>
    ensures { OnOk result (text.new ≡ text.old ++ line_from start.now (relation.now ∷ map term_word (written.written_terms params.now terms.now))) }
{
    text.extend(start)?;
    push_word(text, relation)?;
    push_terms(text, params, terms)?;
    push_line_end(text)
}

#[tactic(auto, using(crate::proofs::Printed::amount_line))]
fn push_amount_line(
    text: &mut Bytes,
    start: &[u8],
    counter: &[u8],
    params: &[Param],
    key: Option<Term>,
    amount: Term,
) -> Result<(), NoMemory>
    ensures { OnOk result (text.new ≡ text.old ++ line_from start.now (counter.now ∷ map term_word (written.written_amount params.now key amount))) }
{
    text.extend(start)?;
    push_word(text, counter)?;
    push_amount(text, params, key, amount)?;
    push_line_end(text)
}

fn push_effects(
    text: &mut Bytes,
    object: &Object,
    params: &[Param],
    effects: &[Effect],
) -> Result<(), NoMemory>
    ensures { OnOk result (text.new ≡ text.old ++ flat_map (λ e. line_text (lines.Effect (written.written_effect object.now params.now e))) effects.now) }
{
    for effect in effects {
        push_effect(text, object, params, effect)?;
    }
    Ok(())
}

fn push_effect(
    text: &mut Bytes,
    object: &Object,
    params: &[Param],
    effect: &Effect,
) -> Result<(), NoMemory>
    ensures { OnOk result (text.new ≡ text.old ++ line_text (lines.Effect (written.written_effect object.now params.now effect.now))) }
{
    match effect {
        Effect::Insert { relation, terms } => {
            let relation = relation_name(object, *relation);
            push_terms_line(text, b"effect insert", relation, params, terms.items())
        }
        Effect::Delete { relation, terms } => {
            let relation = relation_name(object, *relation);
            push_terms_line(text, b"effect delete", relation, params, terms.items())
        }
        Effect::Add {
            counter,
            key,
            amount,
        } => {
            let counter = counter_name(object, *counter);
            push_amount_line(text, b"effect add", counter, params, *key, *amount)
        }
        Effect::Subtract {
            counter,
            key,
            amount,
        } => {
            let counter = counter_name(object, *counter);
            push_amount_line(text, b"effect subtract", counter, params, *key, *amount)
        }
    }
}
