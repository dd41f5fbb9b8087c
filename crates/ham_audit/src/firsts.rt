//! Where each place stands first in a log.

ghost use Rattle.std.specs.Prelude.{◌≡◌, ℕ, ◌^◌, ◌<◌, length, take, IfOk, OnOk};
ghost use Rattle.std.specs.BTreeMap as tree;
ghost use Rattle.std.specs.BTreeMap.{is_at};
ghost use Rattle.ham_audit.specs.Indexed.{by_place, first_index, kept_or, first_act, IsIndex};
ghost use Rattle.ham_audit.specs.Records.{places, stands};

use ham_records::Logged;
use ham_syntax::{Act, NoMemory, Place};
use std::alloc::Global;
use std::collections::BTreeMap;
use std::marker::Model;

/// For each place of a log, the index from 0 at which it stands first.
pub type Firsts = BTreeMap<(u8, u32), u32>;

fn put_first(firsts: &mut Firsts, place: Place, index: u32) -> Result<(), NoMemory>
    ensures { OnOk result ((q : ℕ × ℕ) → tree.get by_place firsts.new q ≡ kept_or (tree.get by_place firsts.old q) (is_at (by_place (place.lane, place.number)) q) index) }
{
    let key = (place.lane, place.number);
    if !firsts.contains_key(&key) {
        firsts.insert(key, index)?;
    }
    Ok(())
}

/// The first indexes of a log.
pub fn firsts_of(alloc: Global, log: &[Logged]) -> Result<Firsts, NoMemory>
    requires { length log.now < 2 ^ 32 }
    ensures { IfOk result (λ firsts. IsIndex firsts log.now) }
{
    let mut firsts = BTreeMap::new(alloc);
    for (i, logged) in log.iter().enumerate() {
        put_first(&mut firsts, logged.place, i as u32)?;
    }
    Ok(firsts)
}

/// The index at which the place stands first.
fn first_of(firsts: &Firsts, place: Place) -> Option<u32>
    ensures { result ≡ tree.get by_place firsts.now (place.lane, place.number) }
{
    firsts.get(&(place.lane, place.number)).copied()
}

/// A log, and where each of its places stands first.
#[derive(Drop)]
pub struct IndexedLog<'a> {
    log: &'a [Logged],
    firsts: Firsts,
}

impl<'a> Model for IndexedLog<'a> {
    ghost use Rattle.std.specs.Prelude.{List, ◌^◌, ◌<◌, length};
    ghost use Rattle.ham_records.specs.declared.records.Logged.{Logged};

    ghost Value = { List Logged };

    ghost use Rattle.ham_audit.specs.Indexed.{IsIndex};

    ghost view = { λ a. a.log.now };

    ghost invariant = { λ a. IsIndex a.firsts a.log.now };
}

impl<'a> IndexedLog<'a> {
    /// The log with its index.
    pub fn of(alloc: Global, log: &'a [Logged]) -> Result<IndexedLog<'a>, NoMemory>
        requires { length log.now < 2 ^ 32 }
        ensures { IfOk result (λ indexed. indexed ≡ log.entry.now) }
    {
        let firsts = firsts_of(alloc, log)?;
        Ok(IndexedLog { log, firsts })
    }

    /// The log.
    pub fn log(&self) -> &[Logged]
        ensures { result.now ≡ self.now }
    {
        self.log
    }

    /// Whether the place stands among the first so many calls.
    #[tactic(auto, using(crate::proofs::Indexing::stands_below))]
    pub fn stands_before(&self, place: Place, index: usize) -> bool
        ensures { result ≡ stands place (places (take index self.now)) }
    {
        match self.firsts.get(&(place.lane, place.number)) {
            None => false,
            Some(first) => (*first as usize) < index,
        }
    }

    /// Where the place stands first, from 0.
    pub fn index_of(&self, place: Place) -> Option<usize>
        ensures { result ≡ first_index place (places self.now) }
    {
        first_of(&self.firsts, place).map(|index| index as usize)
    }

    /// The act of the first call of the place; none exactly where the log lacks the place.
    pub fn act_of(&self, place: Place) -> Option<Act>
        ensures { result ≡ first_act place self.now }
    {
        match first_of(&self.firsts, place) {
            None => None,
            Some(first) => Some(self.log[first as usize].act),
        }
    }
}
