//! What words stand for, in both forms of object files.

ghost use Rattle.std.specs.Prelude.{◌≡◌};
ghost use Rattle.ham_forms.specs.Words as read;

use ham_check::{RawTerm, Verb};
use ham_syntax::{Kind, Name};
use ham_text::number;

/// Whether a counter is keyed: `plain` or `keyed`.
#[tactic(auto, unfolding(crate::specs::Words::keyed_of))]
pub fn read_keyed(word: &[u8]) -> Option<bool>
    ensures { result ≡ read.keyed_of word.now }
{
    if word == b"plain".as_slice() {
        Some(false)
    } else if word == b"keyed".as_slice() {
        Some(true)
    } else {
        None
    }
}

/// What a parameter is: `id` or `amount`.
#[tactic(auto, unfolding(crate::specs::Words::kind_of))]
pub fn read_kind(word: &[u8]) -> Option<Kind>
    ensures { result ≡ read.kind_of word.now }
{
    if word == b"id".as_slice() {
        Some(Kind::Id)
    } else if word == b"amount".as_slice() {
        Some(Kind::Amount)
    } else {
        None
    }
}

/// What a guard asks or an effect does: one of the eight verbs.
#[tactic(auto, unfolding(crate::specs::Words::verb_of))]
pub fn read_verb(word: &[u8]) -> Option<Verb>
    ensures { result ≡ read.verb_of word.now }
{
    if word == b"present".as_slice() {
        Some(Verb::Present)
    } else if word == b"absent".as_slice() {
        Some(Verb::Absent)
    } else if word == b"atleast".as_slice() {
        Some(Verb::AtLeast)
    } else if word == b"atmost".as_slice() {
        Some(Verb::AtMost)
    } else if word == b"insert".as_slice() {
        Some(Verb::Insert)
    } else if word == b"delete".as_slice() {
        Some(Verb::Delete)
    } else if word == b"add".as_slice() {
        Some(Verb::Add)
    } else if word == b"subtract".as_slice() {
        Some(Verb::Subtract)
    } else {
        None
    }
}

/// What kind of invariant a word names.
#[derive(Clone, Copy, Debug, PartialEq, Eq)]
pub enum InvariantKind {
    Reference,
    Unique,
    Low,
    High,
}

/// Which invariant: `reference`, `unique`, `low` or `high`.
#[tactic(auto, unfolding(crate::specs::Words::invariant_kind_of))]
pub fn read_invariant_kind(word: &[u8]) -> Option<InvariantKind>
    ensures { result ≡ read.invariant_kind_of word.now }
{
    if word == b"reference".as_slice() {
        Some(InvariantKind::Reference)
    } else if word == b"unique".as_slice() {
        Some(InvariantKind::Unique)
    } else if word == b"low".as_slice() {
        Some(InvariantKind::Low)
    } else if word == b"high".as_slice() {
        Some(InvariantKind::High)
    } else {
        None
    }
}

/// A term: a parameter's name, `_`, or `#` and a number.
#[tactic(auto, unfolding(crate::specs::Words::term_of))]
pub fn read_term(word: &[u8]) -> Option<RawTerm>
    ensures { result ≡ read.term_of word.now }
{
    match Name::new(word) {
        Some(name) => Some(RawTerm::Named(name)),
        None if word == b"_".as_slice() => Some(RawTerm::Any),
        None => read_constant(word),
    }
}

fn read_constant(word: &[u8]) -> Option<RawTerm>
    ensures { result ≡ read.constant_of word.now }
{
    match word {
        [b'#', digits @ ..] => number(digits).map(RawTerm::Constant),
        _ => None,
    }
}

/// A limit: a number of 64 bits, with `-` before it where it is negative.
#[tactic(auto, unfolding(crate::specs::Words::limit_of))]
pub fn read_limit(word: &[u8]) -> Option<i64>
    ensures { result ≡ read.limit_of word.now }
{
    match word {
        [b'-', digits @ ..] => negative(number(digits)?),
        _ => positive(number(word)?),
    }
}

fn positive(size: u64) -> Option<i64>
    ensures { result ≡ read.positive_of size }
{
    if size < 1 << 63 {
        Some(size as i64)
    } else {
        None
    }
}

fn negative(size: u64) -> Option<i64>
    ensures { result ≡ read.negative_of size }
{
    if 0 < size && size <= 1 << 63 {
        Some(-1 - (size - 1) as i64)
    } else {
        None
    }
}
