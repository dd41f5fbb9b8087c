//! The text of an example.

ghost use Rattle.std.specs.Prelude.{◌≡◌, ◌<◌, length, ℕ, [], ◌∷◌, ◌++◌, codes, map, slice_get, IfOk, OnOk};
ghost use Rattle.std.specs.Fmt.{decimal};
ghost use Rattle.ham_syntax.specs.Objects.{method_name};
ghost use Rattle.ham_text.specs.Written.{line_text, lines_text};
ghost use Rattle.ham_derive.specs.Texts.{claim_words};
ghost use Rattle.ham_witness.specs.ExampleText as texts;

use crate::answers::{Example, Shown};
use crate::ids::{Ids, first_method, ids_of, second_method};
use crate::states::counter_at;
use ham_lists::{Bytes, Items, NoMemory};
use ham_meaning::Outcome;
use ham_rules::Claim;
use ham_state::{Row, State};
use ham_syntax::{Act, Object};
use ham_text::{push_line_end, push_number, push_numbers, push_signed, push_word};
use std::alloc::Global;

/// The text of an example for a claim: its rows, its values, its acts and what they show.
pub fn print_example(
    alloc: Global,
    object: &Object,
    claim: &Claim,
    example: &Example,
) -> Result<Bytes, NoMemory>
    ensures { IfOk result (λ text. text ≡ texts.example_text object.now claim.now example.now) }
{
    let mut text = Items::new(alloc);
    push_claim(&mut text, object, claim)?;
    push_rows(alloc, &mut text, object, &example.state)?;
    push_values(&mut text, object, ids_of(object, claim), &example.state)?;
    push_act(&mut text, object, b"m", &example.m)?;
    push_second(&mut text, object, &example.n)?;
    push_shown(&mut text, example.shown)?;
    text.extend(b"end\n")?;
    Ok(text)
}

fn push_claim(text: &mut Bytes, object: &Object, claim: &Claim) -> Result<(), NoMemory>
    ensures { OnOk result (text.new ≡ text.old ++ line_text (codes "example" ∷ claim_words object.now claim.now)) }
{
    text.extend(b"example")?;
    push_word(text, kind(claim))?;
    push_word(text, name_of(object, first_method(claim)))?;
    if let Some(n) = second_method(claim) {
        push_word(text, name_of(object, n))?;
    }
    push_line_end(text)
}

/// The word for the claim's relation.
fn kind(claim: &Claim) -> &'static [u8]
    ensures { result.now ≡ texts.kind_word claim.now }
{
    match *claim {
        Claim::Sc { .. } => b"sc",
        Claim::Is { .. } => b"is",
        Claim::Pr { .. } => b"pr",
        Claim::Pl { .. } => b"pl",
    }
}

/// The name of a method; nothing where there is none.
fn name_of(object: &Object, m: u8) -> &[u8]
    ensures { result.now ≡ method_name object.now m }
{
    match object.methods().get(usize::from(m)) {
        None => &[],
        Some(method) => method.name.bytes(),
    }
}

fn relation_name(object: &Object, r: u8) -> &[u8]
    ensures { result.now ≡ texts.relation_name object.now r }
{
    match object.relations().get(usize::from(r)) {
        None => &[],
        Some(relation) => relation.name.bytes(),
    }
}

fn counter_name(object: &Object, c: u8) -> &[u8]
    ensures { result.now ≡ texts.counter_name object.now c }
{
    match object.counters().get(usize::from(c)) {
        None => &[],
        Some(counter) => counter.name.bytes(),
    }
}

/// Puts a line of a word, a name and numbers last.
fn push_named(text: &mut Bytes, word: &[u8], name: &[u8], numbers: &[u64]) -> Result<(), NoMemory>
    ensures { OnOk result (text.new ≡ text.old ++ line_text (texts.named_line word.now name.now numbers.now)) }
{
    text.extend(word)?;
    push_word(text, name)?;
    push_numbers(text, numbers)?;
    push_line_end(text)
}

fn push_rows(
    alloc: Global,
    text: &mut Bytes,
    object: &Object,
    state: &State,
) -> Result<(), NoMemory>
    ensures { OnOk result (text.new ≡ text.old ++ lines_text (texts.row_lines object.now state.now.content)) }
{
    let count = object.relations().len() as u8;
    for r in 0..count {
        let rows = state.rows(alloc, r)?;
        push_rows_of(text, relation_name(object, r), rows.items())?;
    }
    Ok(())
}

fn push_rows_of(text: &mut Bytes, name: &[u8], rows: &[Row]) -> Result<(), NoMemory>
    ensures { OnOk result (text.new ≡ text.old ++ lines_text (map (texts.named_line (codes "row") name.now) rows.now)) }
{
    for row in rows {
        push_named(text, b"row", name, row.items())?;
    }
    Ok(())
}

fn push_values(text: &mut Bytes, object: &Object, ids: Ids, state: &State) -> Result<(), NoMemory>
    ensures { OnOk result (text.new ≡ text.old ++ lines_text (texts.value_lines object.now ids state.now.content)) }
{
    let count = object.counters().len() as u8;
    for c in 0..count {
        push_values_of(text, object, ids, state, c)?;
    }
    Ok(())
}

/// Puts the values of a counter last, at each key that a made-up state may have.
fn push_values_of(
    text: &mut Bytes,
    object: &Object,
    ids: Ids,
    state: &State,
    c: u8,
) -> Result<(), NoMemory>
    requires { c < length object.now.counters }
    ensures { OnOk result (text.new ≡ text.old ++ lines_text (texts.value_lines_of object.now ids state.now.content c)) }
{
    if counter_at(object, c).keyed {
        push_value(text, object, state, c, ids.c.min(ids.d))?;
        push_value(text, object, state, c, ids.c.max(ids.d))
    } else {
        push_value(text, object, state, c, 0)
    }
}

/// Puts the value of a counter at a key last, where it isn't 0.
fn push_value(
    text: &mut Bytes,
    object: &Object,
    state: &State,
    c: u8,
    key: u64,
) -> Result<(), NoMemory>
    ensures { OnOk result (text.new ≡ text.old ++ lines_text (texts.value_lines_at object.now state.now.content c key)) }
{
    let value = state.value(c, key);
    if value == 0 {
        return Ok(());
    }
    text.extend(b"value")?;
    push_word(text, counter_name(object, c))?;
    push_number(text, key)?;
    text.push(b' ')?;
    push_signed(text, value)?;
    push_line_end(text)
}

fn push_act(text: &mut Bytes, object: &Object, word: &[u8], act: &Act) -> Result<(), NoMemory>
    ensures { OnOk result (text.new ≡ text.old ++ line_text (texts.act_line object.now word.now act.now)) }
{
    push_named(text, word, name_of(object, act.method), act.args.items())
}

fn push_second(text: &mut Bytes, object: &Object, act: &Option<Act>) -> Result<(), NoMemory>
    ensures { OnOk result (text.new ≡ text.old ++ lines_text (texts.second_lines object.now act.now)) }
{
    match act {
        None => Ok(()),
        Some(act) => push_act(text, object, b"n", act),
    }
}

fn push_shown(text: &mut Bytes, shown: Shown) -> Result<(), NoMemory>
    ensures { OnOk result (text.new ≡ text.old ++ line_text (codes "shows" ∷ texts.shown_words shown)) }
{
    match shown {
        Shown::Unequal => text.extend(b"shows unequal\n"),
        Shown::Outcome(Outcome::Yes) => text.extend(b"shows yes\n"),
        Shown::Outcome(Outcome::Guard(i)) => push_numbered(text, b"shows guard", i),
        Shown::Outcome(Outcome::Invariant(i)) => push_numbered(text, b"shows invariant", i),
    }
}

/// Puts a line of words and a number last.
fn push_numbered(text: &mut Bytes, words: &[u8], number: u8) -> Result<(), NoMemory>
    ensures { OnOk result (text.new ≡ text.old ++ (words.now ++ 32 ∷ (decimal number ++ 10 ∷ []))) }
{
    text.extend(words)?;
    push_number(text, u64::from(number))?;
    push_line_end(text)
}
