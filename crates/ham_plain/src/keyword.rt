//! The first word of a line, and lines of one word or two after it.

ghost use Rattle.std.specs.Prelude.{◌≡◌, option_map, MatchOption};
ghost use Rattle.ham_text.specs.Cuts.{parts_of};
ghost use Rattle.ham_plain.specs.Reading as reading;

use ham_text::cut;

/// The first word of a line.
#[derive(Clone, Copy, Debug, PartialEq, Eq)]
pub enum Keyword {
    Hamsaz,
    Relation,
    Counter,
    Invariant,
    Method,
    Param,
    Guard,
    Effect,
    End,
}

/// The keyword that the word is.
#[tactic(auto, unfolding(crate::specs::Reading::keyword_of))]
pub fn read_keyword(word: &[u8]) -> Option<Keyword>
    ensures { result ≡ reading.keyword_of word.now }
{
    if word == b"hamsaz".as_slice() {
        Some(Keyword::Hamsaz)
    } else if word == b"relation".as_slice() {
        Some(Keyword::Relation)
    } else if word == b"counter".as_slice() {
        Some(Keyword::Counter)
    } else if word == b"invariant".as_slice() {
        Some(Keyword::Invariant)
    } else if word == b"method".as_slice() {
        Some(Keyword::Method)
    } else if word == b"param".as_slice() {
        Some(Keyword::Param)
    } else if word == b"guard".as_slice() {
        Some(Keyword::Guard)
    } else if word == b"effect".as_slice() {
        Some(Keyword::Effect)
    } else if word == b"end".as_slice() {
        Some(Keyword::End)
    } else {
        None
    }
}

/// The two words of a text, if it has two.
#[tactic(auto, using(crate::proofs::Parts::no_pair))]
pub fn pair(text: &[u8]) -> Option<(&[u8], &[u8])>
    ensures { option_map (λ p. (p.0.now, p.1.now)) result ≡ reading.pair_of (parts_of 32 text.now) }
{
    let (first, rest) = cut(text, b' ');
    let (second, more) = cut(rest?, b' ');
    match more {
        None => Some((first, second)),
        Some(_) => None,
    }
}

/// The word of a text, if it has one.
#[tactic(auto, using(crate::proofs::Parts::no_single))]
pub fn single(text: &[u8]) -> Option<&[u8]>
    ensures { option_map (λ word. word.now) result ≡ reading.single_of (parts_of 32 text.now) }
{
    match cut(text, b' ') {
        (word, None) => Some(word),
        (_, Some(_)) => None,
    }
}
