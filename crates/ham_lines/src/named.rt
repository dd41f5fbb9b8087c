//! Acts, counters and relations as they are written: by name.

ghost use Rattle.std.specs.Prelude.{◌≡◌, ◌<◌, length, slice_get, IsTrue};
ghost use Rattle.ham_text.specs.Cuts.{words_of};
ghost use Rattle.ham_syntax.specs.Names.{is_name};
ghost use Rattle.ham_syntax.specs.Objects as objects;
ghost use Rattle.ham_lines.specs.Named as named;
ghost use Rattle.ham_lines.specs.Reading as reading;

use crate::fault::LineFault;
use crate::numbers::{arguments, one_number};
use ham_syntax::{Act, Args, Name, Object};
use ham_text::first_word;

/// An act as it is written: the name of a method, and arguments.
#[derive(Clone, Copy, Debug, PartialEq, Eq)]
pub struct NamedAct {
    pub method: Name,
    pub args: Args,
}

/// A counter as it is written: its name, and a key where one is given.
#[derive(Clone, Copy, Debug, PartialEq, Eq)]
pub struct NamedCounter {
    pub counter: Name,
    pub key: Option<u64>,
}

/// `METHOD A1 ..`, with at most six arguments, each a number. None where the line isn't so.
#[tactic(auto, unfolding(crate::specs::Reading::act_of))]
pub fn read_act(line: &[u8]) -> Option<NamedAct>
    ensures { result ≡ reading.act_of (words_of line.now) }
{
    let (method, rest) = first_word(line)?;
    let method = Name::new(method)?;
    let args = arguments(rest)?;
    Some(NamedAct { method, args })
}

/// `COUNTER` or `COUNTER KEY`, a number. None where the line isn't so.
#[tactic(auto, unfolding(crate::specs::Reading::counter_of))]
pub fn read_counter(line: &[u8]) -> Option<NamedCounter>
    ensures { result ≡ reading.counter_of (words_of line.now) }
{
    let (counter, rest) = first_word(line)?;
    let counter = Name::new(counter)?;
    if first_word(rest).is_none() {
        return Some(NamedCounter { counter, key: None });
    }
    let key = one_number(rest)?;
    Some(NamedCounter {
        counter,
        key: Some(key),
    })
}

/// `RELATION`. None where the line isn't so.
#[tactic(auto, unfolding(crate::specs::Reading::relation_of))]
pub fn read_relation(line: &[u8]) -> Option<Name>
    ensures { result ≡ reading.relation_of (words_of line.now) }
{
    let (relation, rest) = first_word(line)?;
    match first_word(rest) {
        None => Name::new(relation),
        Some(_) => None,
    }
}

impl NamedAct {
    /// The act that is meant; none exactly where the object has no method of the name.
    #[tactic(auto, unfolding(crate::specs::Named::act_meant))]
    pub fn meant(&self, object: &Object) -> Option<Act>
        ensures { result ≡ named.act_meant object.now self.now }
    {
        let method = object.method_named(&self.method)?;
        Some(Act {
            method,
            args: self.args,
        })
    }
}

impl NamedCounter {
    /// The counter that is meant, and its key; the key of a plain counter is 0. `UnknownName` where the object has no
    /// counter of the name, and `BadKey` where it has, and a key is missing or too much.
    #[tactic(auto, unfolding(crate::specs::Named::counter_meant))]
    pub fn meant(&self, object: &Object) -> Result<(u8, u64), LineFault>
        ensures { result ≡ named.counter_meant object.now self.now }
    {
        let Some(counter) = object.counter_named(&self.counter) else {
            return Err(LineFault::UnknownName);
        };
        match (is_keyed(object, counter), self.key) {
            (true, Some(key)) => Ok((counter, key)),
            (false, None) => Ok((counter, 0)),
            (true, None) => Err(LineFault::BadKey),
            (false, Some(_)) => Err(LineFault::BadKey),
        }
    }
}

/// The name of method m.
pub fn method_name(object: &Object, m: u8) -> &[u8]
    requires { m < length object.now.methods }
    ensures text { result.now ≡ objects.method_name object.now m }
    ensures name { IsTrue (is_name (objects.method_name object.now m)) }
{
    object.methods()[usize::from(m)].name.bytes()
}

/// The name of counter c.
pub fn counter_name(object: &Object, c: u8) -> &[u8]
    requires { c < length object.now.counters }
    ensures text { result.now ≡ named.counter_name object.now c }
    ensures name { IsTrue (is_name (named.counter_name object.now c)) }
{
    object.counters()[usize::from(c)].name.bytes()
}

/// The name of relation r.
pub fn relation_name(object: &Object, r: u8) -> &[u8]
    requires { r < length object.now.relations }
    ensures text { result.now ≡ named.relation_name object.now r }
    ensures name { IsTrue (is_name (named.relation_name object.now r)) }
{
    object.relations()[usize::from(r)].name.bytes()
}

/// Whether counter c has a number for each key.
pub fn is_keyed(object: &Object, c: u8) -> bool
    requires { c < length object.now.counters }
    ensures { result ≡ named.is_keyed (slice_get object.now.counters c) }
{
    object.counters()[usize::from(c)].keyed
}
