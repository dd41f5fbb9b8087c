//! What was sent on a link, as bytes.

ghost use Rattle.std.specs.Prelude.{◌≡◌, ◌-◌, ◌+◌, ◌++◌, ◌≤◌, ◌∷◌, [], length, take, drop, OnOk, OnErr};
ghost use Rattle.std.specs.List.{flat_map};
ghost use Rattle.ham_frame.specs.Spelling.{Fits, spelling};
ghost use Rattle.ham_wire.specs.Links as lists;

use ham_frame::{Frame, put_frame};
use ham_lists::{Bytes, Items, NoMemory};
use std::alloc::Global;
use std::marker::Model;

/// The spelled frames of a link, one after another.
#[derive(Drop)]
pub struct Link {
    bytes: Bytes,
    ends: Vec<usize>,
}

impl Model for Link {
    ghost use Rattle.std.specs.Prelude.{List, ℕ, length};

    ghost Value = { List (List ℕ) };

    ghost use Rattle.ham_wire.specs.Links.{parts, AscendTo};

    ghost view = { λ l. parts 0 l.ends.items l.bytes };

    ghost invariant = { λ l. AscendTo 0 l.ends.items (length l.bytes) };
}

impl Link {
    /// Nothing was sent.
    pub fn new(alloc: Global) -> Self
        ensures { result ≡ [] }
    {
        Link {
            bytes: Items::new(alloc),
            ends: Vec::new(alloc),
        }
    }

    /// How many frames were sent.
    pub fn len(&self) -> usize
        ensures { result ≡ length self.now }
    {
        self.ends.as_slice().len()
    }

    /// Puts a spelled frame last.
    pub fn push(&mut self, frame: &[u8]) -> Result<(), NoMemory>
        ensures ok { OnOk result (self.new ≡ self.old ++ frame.now ∷ []) }
        ensures err { OnErr result (self.new ≡ self.old) }
    {
        if self.ends.reserve(1).is_err() {
            return Err(NoMemory);
        }
        if self.bytes.extend(frame).is_err() {
            return Err(NoMemory);
        }
        let end = self.bytes.items().len();
        self.ends.push_reserved(end);
        Ok(())
    }

    /// Spells a frame, and puts it last.
    pub fn put(&mut self, frame: &Frame) -> Result<(), NoMemory>
        requires { Fits frame.now }
        ensures ok { OnOk result (self.new ≡ self.old ++ spelling frame.now ∷ []) }
        ensures err { OnErr result (self.new ≡ self.old) }
    {
        if self.ends.reserve(1).is_err() {
            return Err(NoMemory);
        }
        if put_frame(&mut self.bytes, frame).is_err() {
            return Err(NoMemory);
        }
        let end = self.bytes.items().len();
        self.ends.push_reserved(end);
        Ok(())
    }

    /// The frames from the `first`-th to the `last`-th, joined.
    pub fn span(&self, first: usize, last: usize) -> &[u8]
        requires first { 1 ≤ first }
        requires some { first ≤ last }
        requires last { last ≤ length self.now }
        ensures { result.now ≡ flat_map (λ f. f) (take (last + 1 - first) (drop (first - 1) self.now)) }
    {
        let ends = self.ends.as_slice();
        part(self.bytes.items(), ends, first - 1, last)
    }
}

/// Where the `number`-th part ends.
fn end_of(ends: &[usize], number: usize) -> usize
    requires { number ≤ length ends.now }
    ensures { result ≡ lists.end_at 0 ends.now number }
{
    if number == 0 { 0 } else { ends[number - 1] }
}

/// The bytes of the parts after the first `before` up to the `last`-th.
fn part<'a>(bytes: &'a [u8], ends: &[usize], before: usize, last: usize) -> &'a [u8]
    requires ascend { lists.AscendTo 0 ends.now (length bytes.now) }
    requires some { before ≤ last }
    requires last { last ≤ length ends.now }
    ensures { result.now ≡ take (lists.end_at 0 ends.now last - lists.end_at 0 ends.now before)
        (drop (lists.end_at 0 ends.now before) bytes.now) }
{
    let (start, end) = range(bytes.len(), ends, before, last);
    &bytes[start..end]
}

fn range(len: usize, ends: &[usize], before: usize, last: usize) -> (usize, usize)
    requires ascend { lists.AscendTo 0 ends.now len }
    requires some { before ≤ last }
    requires last { last ≤ length ends.now }
    ensures start { result.0 ≡ lists.end_at 0 ends.now before }
    ensures end { result.1 ≡ lists.end_at 0 ends.now last }
    ensures ascends { result.0 ≤ result.1 }
    ensures within { result.1 ≤ len }
{
    (end_of(ends, before), end_of(ends, last))
}
