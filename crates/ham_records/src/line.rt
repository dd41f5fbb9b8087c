//! The lines of the text of records.

ghost use Rattle.std.specs.Prelude.{◌≡◌, ◌+◌, ◌^◌, ◌<◌, ◌≤◌, [], length, option_copied, IfSome};
ghost use Rattle.ham_text.specs.Cuts.{parts_of};
ghost use Rattle.ham_text.specs.Numbers.{numbers_within};
ghost use Rattle.ham_syntax.specs.Objects.{method_named};
ghost use Rattle.ham_records.specs.Reading as reading;

use crate::records::Logged;
use ham_syntax::limits::{MAX_PARAMS, MAX_REPLICAS};
use ham_syntax::{Act, Args, Object, Place};
use ham_text::{cut, number};

/// A line of a text of records.
#[derive(Clone, Copy, Debug)]
pub(crate) enum RecordLine {
    Opening,
    Replicas(u8),
    Replica(u8),
    Call(Logged),
    End,
}

/// The line that the text is, without its end.
#[tactic(auto, using(crate::proofs::Words::line_of_two), unfolding(crate::specs::Reading::line_of))]
pub(crate) fn read_line(object: &Object, text: &[u8]) -> Option<RecordLine>
    ensures { result ≡ reading.line_of object.now (parts_of 32 text.now) }
{
    match cut(text, b' ') {
        (word, None) => bare_line(word),
        (word, Some(rest)) => line_after(object, word, rest),
    }
}

/// The line that is this word alone.
fn bare_line(word: &[u8]) -> Option<RecordLine>
    ensures { result ≡ reading.bare_line word.now }
{
    if word == b"end".as_slice() {
        Some(RecordLine::End)
    } else {
        None
    }
}

/// The line of a word and what comes after it.
fn line_after(object: &Object, word: &[u8], rest: &[u8]) -> Option<RecordLine>
    ensures { result ≡ reading.line_after object.now word.now (parts_of 32 rest.now) }
{
    if word == b"call".as_slice() {
        read_call(object, rest).map(RecordLine::Call)
    } else if word == b"replica".as_slice() {
        read_replica(rest)
    } else if word == b"replicas".as_slice() {
        read_replicas(rest)
    } else if word == b"hamsaz".as_slice() {
        read_opening(rest)
    } else {
        None
    }
}

#[tactic(auto, using(crate::proofs::Words::no_single), unfolding(crate::specs::Reading::single_of))]
fn single(text: &[u8]) -> Option<&[u8]>
    ensures { option_copied result ≡ reading.single_of (parts_of 32 text.now) }
{
    match cut(text, b' ') {
        (word, None) => Some(word),
        (_, Some(_)) => None,
    }
}

/// The number of one word, of at most 255.
fn small_number(word: &[u8]) -> Option<u8>
    ensures { result ≡ reading.small_of word.now }
{
    let found = number(word)?;
    if found < 256 { Some(found as u8) } else { None }
}

/// The number of one word, of 32 bits.
fn wide_number(word: &[u8]) -> Option<u32>
    ensures { result ≡ reading.wide_of word.now }
{
    let found = number(word)?;
    if found < 4_294_967_296 {
        Some(found as u32)
    } else {
        None
    }
}

fn read_replica(text: &[u8]) -> Option<RecordLine>
    ensures { result ≡ reading.replica_of (parts_of 32 text.now) }
{
    let replica = small_number(single(text)?)?;
    Some(RecordLine::Replica(replica))
}

fn read_replicas(text: &[u8]) -> Option<RecordLine>
    ensures { result ≡ reading.replicas_of (parts_of 32 text.now) }
{
    let replicas = small_number(single(text)?)?;
    if 1 <= replicas && replicas as usize <= MAX_REPLICAS {
        Some(RecordLine::Replicas(replicas))
    } else {
        None
    }
}

#[tactic(auto, using(crate::proofs::Words::no_pair), unfolding(crate::specs::Reading::opening_of))]
fn read_opening(text: &[u8]) -> Option<RecordLine>
    ensures { result ≡ reading.opening_of (parts_of 32 text.now) }
{
    let (audit, rest) = cut(text, b' ');
    let Some(rest) = rest else {
        return None;
    };
    match cut(rest, b' ') {
        (version, None) => opening_by(audit, version),
        (_, Some(_)) => None,
    }
}

fn opening_by(audit: &[u8], version: &[u8]) -> Option<RecordLine>
    ensures { result ≡ reading.opening_by audit.now version.now }
{
    if audit == b"audit".as_slice() && version == b"1".as_slice() {
        Some(RecordLine::Opening)
    } else {
        None
    }
}

/// `L K METHOD A1 ..`: a place and an act of the object.
#[tactic(auto, unfolding(crate::specs::Reading::call_of))]
fn read_call(object: &Object, text: &[u8]) -> Option<Logged>
    ensures { result ≡ reading.call_of object.now (parts_of 32 text.now) }
{
    let (lane, rest) = cut(text, b' ');
    let (number, rest) = cut(rest?, b' ');
    let (method, rest) = cut(rest?, b' ');
    let place = read_place(lane, number)?;
    let act = read_act(object, method, rest)?;
    Some(Logged { place, act })
}

fn read_place(lane: &[u8], number: &[u8]) -> Option<Place>
    ensures { result ≡ reading.place_of lane.now number.now }
{
    let lane = small_number(lane)?;
    let number = wide_number(number)?;
    Some(Place { lane, number })
}

/// An act of the object: a method's name, and arguments that fit its parameters.
#[tactic(auto, unfolding(crate::specs::Reading::act_of))]
fn read_act(object: &Object, name: &[u8], rest: Option<&[u8]>) -> Option<Act>
    ensures { result ≡ reading.act_of object.now name.now (reading.words_in (option_copied rest.entry)) }
{
    let method = method_called(object, name)?;
    let args = arguments(rest)?;
    let act = Act { method, args };
    if object.args_fit(&act) {
        Some(act)
    } else {
        None
    }
}

/// The method with the name.
fn method_called(object: &Object, name: &[u8]) -> Option<u8>
    ensures { result ≡ method_named object.now name.now }
{
    place_of(object, name).map(|place| place as u8)
}

fn place_of(object: &Object, name: &[u8]) -> Option<usize>
    ensures place { result ≡ method_named object.now name.now }
    ensures within { IfSome result (λ m. m < 256) }
{
    object
        .methods()
        .iter()
        .position(|method| method.name.bytes() == name)
}

/// The numbers that are left of a line, at most `MAX_PARAMS`; none where a word is no number, or there are more.
fn arguments(rest: Option<&[u8]>) -> Option<Args>
    ensures { result ≡ numbers_within MAX_PARAMS (reading.words_in (option_copied rest.entry)) }
{
    let mut numbers = [0u64; MAX_PARAMS];
    let mut count = 0usize;
    let mut left = rest;
    while let Some(text) = left {
        let (word, rest) = cut(text, b' ');
        if count == MAX_PARAMS {
            return None;
        }
        numbers[count] = number(word)?;
        count += 1;
        left = rest;
    }
    Args::new(&numbers[..count])
}
