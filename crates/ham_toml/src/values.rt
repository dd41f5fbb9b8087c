//! The values of a table's keys.

ghost use Rattle.std.specs.Prelude.{◌≡◌, Some, None, if◌then◌else◌};
ghost use Rattle.toml.specs.View.{view, items_view};
ghost use Rattle.ham_forms.specs.Words.{Finds, kind_of, name_of, invariant_kind_of, term_of, verb_of};
ghost use Rattle.ham_toml.specs.Toml as tables;

use ham_check::{RawPart, RawTerm, Verb};
use ham_forms::{InvariantKind, Unread, read_invariant_kind, read_kind, read_term, read_verb};
use ham_lists::Items;
use ham_syntax::{Kind, Name, Param};
use std::alloc::Global;
use toml::Value;

pub fn name(value: &Value) -> Option<Name>
    ensures { result ≡ tables.word_in name_of (view value.now) }
{
    Name::new(value.as_str()?.as_bytes())
}

pub fn invariant_kind(value: &Value) -> Option<InvariantKind>
    ensures { result ≡ tables.word_in invariant_kind_of (view value.now) }
{
    read_invariant_kind(value.as_str()?.as_bytes())
}

fn kind(value: &Value) -> Option<Kind>
    ensures { result ≡ tables.word_in kind_of (view value.now) }
{
    read_kind(value.as_str()?.as_bytes())
}

fn verb(value: &Value) -> Option<Verb>
    ensures { result ≡ tables.word_in verb_of (view value.now) }
{
    read_verb(value.as_str()?.as_bytes())
}

fn term(value: &Value) -> Option<RawTerm>
    ensures { result ≡ tables.word_in term_of (view value.now) }
{
    read_term(value.as_str()?.as_bytes())
}

/// An integer from 0.
pub fn natural(value: &Value) -> Option<u64>
    ensures { result ≡ tables.natural_in (view value.now) }
{
    let number = value.as_integer()?;
    if number < 0 {
        return None;
    }
    Some(number as u64)
}

/// The integer 1.
pub fn one(value: &Value) -> Option<()>
    ensures { result ≡ tables.one_in (view value.now) }
{
    if natural(value)? == 1 { Some(()) } else { None }
}

/// The integers from 0 of an array.
pub fn naturals(alloc: Global, value: &Value) -> Result<Items<u64>, Unread>
    ensures { Finds result (tables.array_in tables.natural_in (view value.now)) }
{
    let values = value.as_array().ok_or(Unread::Nothing)?;
    each_natural(alloc, values)
}

fn each_natural(alloc: Global, values: &[Value]) -> Result<Items<u64>, Unread>
    ensures { Finds result (tables.all_of tables.natural_in (items_view values.now)) }
{
    let mut numbers = Items::new(alloc);
    for value in values {
        numbers.push(natural(value).ok_or(Unread::Nothing)?)?;
    }
    Ok(numbers)
}

fn param(value: &Value) -> Option<Param>
    ensures { result ≡ tables.param_in (view value.now) }
{
    param_of(value.as_array()?)
}

fn param_of(values: &[Value]) -> Option<Param>
    ensures { result ≡ tables.param_of (items_view values.now) }
{
    let [first, second, rest @ ..] = values else {
        return None;
    };
    if !rest.is_empty() {
        return None;
    }
    let name = name(first)?;
    let kind = kind(second)?;
    Some(Param { name, kind })
}

/// The parameters of an array.
pub fn params(alloc: Global, value: &Value) -> Result<Items<Param>, Unread>
    ensures { Finds result (tables.array_in tables.param_in (view value.now)) }
{
    let values = value.as_array().ok_or(Unread::Nothing)?;
    each_param(alloc, values)
}

fn each_param(alloc: Global, values: &[Value]) -> Result<Items<Param>, Unread>
    ensures { Finds result (tables.all_of tables.param_in (items_view values.now)) }
{
    let mut params = Items::new(alloc);
    for value in values {
        params.push(param(value).ok_or(Unread::Nothing)?)?;
    }
    Ok(params)
}

fn each_term(alloc: Global, values: &[Value]) -> Result<Items<RawTerm>, Unread>
    ensures { Finds result (tables.all_of (tables.word_in term_of) (items_view values.now)) }
{
    let mut terms = Items::new(alloc);
    for value in values {
        terms.push(term(value).ok_or(Unread::Nothing)?)?;
    }
    Ok(terms)
}

fn part(alloc: Global, value: &Value) -> Result<RawPart, Unread>
    ensures { Finds result (tables.part_in (view value.now)) }
{
    let values = value.as_array().ok_or(Unread::Nothing)?;
    part_of(alloc, values)
}

fn part_of(alloc: Global, values: &[Value]) -> Result<RawPart, Unread>
    ensures { Finds result (tables.part_of (items_view values.now)) }
{
    let [first, second, rest @ ..] = values else {
        return Err(Unread::Nothing);
    };
    let verb = verb(first).ok_or(Unread::Nothing)?;
    let name = name(second).ok_or(Unread::Nothing)?;
    let terms = each_term(alloc, rest)?;
    Ok(RawPart { verb, name, terms })
}

/// The guards or effects of an array.
pub fn parts(alloc: Global, value: &Value) -> Result<Items<RawPart>, Unread>
    ensures { Finds result (tables.array_in tables.part_in (view value.now)) }
{
    let values = value.as_array().ok_or(Unread::Nothing)?;
    each_part(alloc, values)
}

fn each_part(alloc: Global, values: &[Value]) -> Result<Items<RawPart>, Unread>
    ensures { Finds result (tables.all_of tables.part_in (items_view values.now)) }
{
    let mut parts = Items::new(alloc);
    for value in values {
        parts.push(part(alloc, value)?)?;
    }
    Ok(parts)
}
