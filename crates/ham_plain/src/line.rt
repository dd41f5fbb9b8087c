//! The lines of a file.

ghost use Rattle.std.specs.Prelude.{◌≡◌, [], option_copied};
ghost use Rattle.ham_text.specs.Cuts.{parts_of};
ghost use Rattle.ham_text.specs.Numbers.{number_of};
ghost use Rattle.ham_forms.specs.Words.{Finds, term_of};
ghost use Rattle.ham_plain.specs.Reading as reading;

use crate::keyword::{Keyword, pair, read_keyword, single};
use ham_check::{RawInvariant, RawPart, RawRelation, RawTerm};
use ham_forms::{
    InvariantKind, Unread, read_invariant_kind, read_keyed, read_kind, read_limit, read_term,
    read_verb,
};
use ham_lists::Items;
use ham_syntax::{Counter, Name, Param};
use ham_text::{cut, number};
use std::alloc::Global;

/// A line of an object in plain form.
#[derive(Debug, Drop)]
pub enum PlainLine {
    Opening,
    Relation(RawRelation),
    Counter(Counter),
    Invariant(RawInvariant),
    Method(Name),
    Param(Param),
    Guard(RawPart),
    Effect(RawPart),
    End,
}

/// The line that the text is, without its end.
#[tactic(auto, unfolding(crate::specs::Reading::line_of))]
pub fn read_line(alloc: Global, text: &[u8]) -> Result<PlainLine, Unread>
    ensures { Finds result (reading.line_of (parts_of 32 text.now)) }
{
    let (word, rest) = cut(text, b' ');
    let keyword = read_keyword(word).ok_or(Unread::Nothing)?;
    match rest {
        Some(rest) => line_after(alloc, keyword, rest),
        None => bare_line(keyword).ok_or(Unread::Nothing),
    }
}

/// The line that is this word alone.
#[tactic(auto, unfolding(crate::specs::Reading::line_after, crate::specs::Reading::opening_of, crate::specs::Reading::relation_of, crate::specs::Reading::counter_of, crate::specs::Reading::invariant_of, crate::specs::Reading::method_of, crate::specs::Reading::param_of, crate::specs::Reading::part_of))]
fn bare_line(keyword: Keyword) -> Option<PlainLine>
    ensures { result ≡ reading.line_after keyword [] }
{
    match keyword {
        Keyword::End => Some(PlainLine::End),
        Keyword::Hamsaz => None,
        Keyword::Relation => None,
        Keyword::Counter => None,
        Keyword::Invariant => None,
        Keyword::Method => None,
        Keyword::Param => None,
        Keyword::Guard => None,
        Keyword::Effect => None,
    }
}

#[tactic(auto, using(crate::proofs::Parts::no_end), unfolding(crate::specs::Reading::line_after))]
fn line_after(alloc: Global, keyword: Keyword, text: &[u8]) -> Result<PlainLine, Unread>
    ensures { Finds result (reading.line_after keyword (parts_of 32 text.now)) }
{
    let line = match keyword {
        Keyword::Hamsaz => opening(text),
        Keyword::Relation => relation(text).map(PlainLine::Relation),
        Keyword::Counter => counter(text).map(PlainLine::Counter),
        Keyword::Invariant => Some(PlainLine::Invariant(invariant(alloc, text)?)),
        Keyword::Method => method(text).map(PlainLine::Method),
        Keyword::Param => param(text).map(PlainLine::Param),
        Keyword::Guard => Some(PlainLine::Guard(part(alloc, text)?)),
        Keyword::Effect => Some(PlainLine::Effect(part(alloc, text)?)),
        Keyword::End => None,
    };
    line.ok_or(Unread::Nothing)
}

#[tactic(auto, unfolding(crate::specs::Reading::opening_of))]
fn opening(text: &[u8]) -> Option<PlainLine>
    ensures { result ≡ reading.opening_of (parts_of 32 text.now) }
{
    let (object, version) = pair(text)?;
    if object == b"object".as_slice() && version == b"1".as_slice() {
        Some(PlainLine::Opening)
    } else {
        None
    }
}

#[tactic(auto, unfolding(crate::specs::Reading::relation_of))]
fn relation(text: &[u8]) -> Option<RawRelation>
    ensures { result ≡ reading.relation_of (parts_of 32 text.now) }
{
    let (name, columns) = pair(text)?;
    let name = Name::new(name)?;
    let columns = number(columns)?;
    Some(RawRelation { name, columns })
}

#[tactic(auto, unfolding(crate::specs::Reading::counter_of))]
fn counter(text: &[u8]) -> Option<Counter>
    ensures { result ≡ reading.counter_of (parts_of 32 text.now) }
{
    let (name, keyed) = pair(text)?;
    let name = Name::new(name)?;
    let keyed = read_keyed(keyed)?;
    Some(Counter { name, keyed })
}

#[tactic(auto, unfolding(crate::specs::Reading::param_of))]
fn param(text: &[u8]) -> Option<Param>
    ensures { result ≡ reading.param_of (parts_of 32 text.now) }
{
    let (name, kind) = pair(text)?;
    let name = Name::new(name)?;
    let kind = read_kind(kind)?;
    Some(Param { name, kind })
}

#[tactic(auto, unfolding(crate::specs::Reading::method_of))]
fn method(text: &[u8]) -> Option<Name>
    ensures { result ≡ reading.method_of (parts_of 32 text.now) }
{
    Name::new(single(text)?)
}

#[tactic(auto, using(crate::proofs::Parts::nothing_by_kind), unfolding(crate::specs::Reading::invariant_of))]
fn invariant(alloc: Global, text: &[u8]) -> Result<RawInvariant, Unread>
    ensures { Finds result (reading.invariant_of (parts_of 32 text.now)) }
{
    let (kind, rest) = cut(text, b' ');
    let kind = read_invariant_kind(kind).ok_or(Unread::Nothing)?;
    match rest {
        Some(rest) => by_kind(alloc, kind, rest),
        None => Err(Unread::Nothing),
    }
}

#[tactic(auto, unfolding(crate::specs::Reading::by_kind_of))]
fn by_kind(alloc: Global, kind: InvariantKind, text: &[u8]) -> Result<RawInvariant, Unread>
    ensures { Finds result (reading.by_kind_of kind (parts_of 32 text.now)) }
{
    match kind {
        InvariantKind::Reference => reference(alloc, text),
        InvariantKind::Unique => unique(alloc, text),
        InvariantKind::Low => low(text).ok_or(Unread::Nothing),
        InvariantKind::High => high(text).ok_or(Unread::Nothing),
    }
}

#[tactic(auto, unfolding(crate::specs::Reading::reference_of))]
fn reference(alloc: Global, text: &[u8]) -> Result<RawInvariant, Unread>
    ensures { Finds result (reading.reference_of (parts_of 32 text.now)) }
{
    let (from, rest) = cut(text, b' ');
    let (to, rest) = cut(rest.ok_or(Unread::Nothing)?, b' ');
    let from = Name::new(from).ok_or(Unread::Nothing)?;
    let to = Name::new(to).ok_or(Unread::Nothing)?;
    let columns = numbers(alloc, rest)?;
    Ok(RawInvariant::Reference { from, columns, to })
}

#[tactic(auto, unfolding(crate::specs::Reading::unique_of))]
fn unique(alloc: Global, text: &[u8]) -> Result<RawInvariant, Unread>
    ensures { Finds result (reading.unique_of (parts_of 32 text.now)) }
{
    let (relation, rest) = cut(text, b' ');
    let relation = Name::new(relation).ok_or(Unread::Nothing)?;
    let columns = numbers(alloc, rest)?;
    Ok(RawInvariant::Unique { relation, columns })
}

#[tactic(auto, unfolding(crate::specs::Reading::low_of))]
fn low(text: &[u8]) -> Option<RawInvariant>
    ensures { result ≡ reading.low_of (parts_of 32 text.now) }
{
    let (counter, limit) = pair(text)?;
    let counter = Name::new(counter)?;
    let limit = read_limit(limit)?;
    Some(RawInvariant::Low { counter, limit })
}

#[tactic(auto, unfolding(crate::specs::Reading::high_of))]
fn high(text: &[u8]) -> Option<RawInvariant>
    ensures { result ≡ reading.high_of (parts_of 32 text.now) }
{
    let (counter, limit) = pair(text)?;
    let counter = Name::new(counter)?;
    let limit = read_limit(limit)?;
    Some(RawInvariant::High { counter, limit })
}

#[tactic(auto, unfolding(crate::specs::Reading::part_of))]
fn part(alloc: Global, text: &[u8]) -> Result<RawPart, Unread>
    ensures { Finds result (reading.part_of (parts_of 32 text.now)) }
{
    let (verb, rest) = cut(text, b' ');
    let (name, rest) = cut(rest.ok_or(Unread::Nothing)?, b' ');
    let verb = read_verb(verb).ok_or(Unread::Nothing)?;
    let name = Name::new(name).ok_or(Unread::Nothing)?;
    let terms = terms(alloc, rest)?;
    Ok(RawPart { verb, name, terms })
}

fn terms(alloc: Global, text: Option<&[u8]>) -> Result<Items<RawTerm>, Unread>
    ensures { Finds result (reading.values_from term_of [] (reading.words_in (option_copied text.entry))) }
{
    let mut terms = Items::new(alloc);
    let mut left = text;
    while let Some(text) = left {
        let (word, rest) = cut(text, b' ');
        terms.push(read_term(word).ok_or(Unread::Nothing)?)?;
        left = rest;
    }
    Ok(terms)
}

fn numbers(alloc: Global, text: Option<&[u8]>) -> Result<Items<u64>, Unread>
    ensures { Finds result (reading.values_from number_of [] (reading.words_in (option_copied text.entry))) }
{
    let mut numbers = Items::new(alloc);
    let mut left = text;
    while let Some(text) = left {
        let (word, rest) = cut(text, b' ');
        numbers.push(number(word).ok_or(Unread::Nothing)?)?;
        left = rest;
    }
    Ok(numbers)
}
