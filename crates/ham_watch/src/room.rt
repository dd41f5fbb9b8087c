//! Room for steps, made beforehand.

ghost use Rattle.std.specs.Prelude.{◌≡◌, ℕ, ◌+◌, ◌*◌, ◌<◌, ◌≤◌, List, map, OnOk};
ghost use Rattle.std.specs.HashMap as hash;
ghost use Rattle.std.specs.HashSet as bag;
ghost use Rattle.ham_content.specs.Numbers.{same};
ghost use Rattle.ham_content.specs.Tallies.{count};
ghost use Rattle.ham_steps.specs.Content.{State};
ghost use Rattle.ham_content.specs.Kept.{content};
ghost use Rattle.ham_watch.specs.Watches.{IsWatch, HasRoomIn, AreWatches, HaveRoom};
ghost use Rattle.ham_watch.specs.Watches.{AreSound};

use crate::watch::Watch;
use ham_content::sieves::prepare_sieves;
use ham_content::{FactKey, Sieve, Spot};
use ham_steps::Row;
use std::alloc::AllocError;
use std::collections::{HashMap, HashSet};

/// Makes room for the tallies of so many steps.
fn reserve_tallies(tallies: &mut HashMap<Row, u64>, steps: usize) -> Result<(), AllocError>
    ensures counts { (k : List ℕ) → count tallies.new k ≡ count tallies.old k }
    ensures len { hash.hash_map_len tallies.new ≡ hash.hash_map_len tallies.old }
    ensures spare { hash.spare tallies.old ≤ hash.spare tallies.new }
    ensures room { OnOk result (steps ≤ hash.spare tallies.new) }
{
    tallies.reserve(steps)
}

/// Makes room for the marks of so many steps: as many as there are tallies may be broken by one.
fn reserve_marks(
    tallies: &HashMap<Row, u64>,
    broken: &mut HashSet<Row>,
    steps: usize,
) -> Result<(), AllocError>
    requires { steps < 256 }
    ensures marks { (k : List ℕ) → bag.contains same broken.new k ≡ bag.contains same broken.old k }
    ensures len { bag.hash_set_len broken.new ≡ bag.hash_set_len broken.old }
    ensures spare { bag.spare broken.old ≤ bag.spare broken.new }
    ensures room { OnOk result (hash.hash_map_len tallies.now + 3 * steps ≤ bag.spare broken.new) }
{
    broken.reserve(tallies.len() + 3 * steps)
}

/// Makes room in a watch for so many steps. What it watches stays, whatever the answer.
fn prepare_watch(watch: &mut Watch, steps: usize) -> Result<(), AllocError>
    requires { steps < 256 }
    ensures watched { (s : State) → IsWatch s watch.old → IsWatch s watch.new }
    ensures kept { (n : ℕ) → HasRoomIn n watch.old → HasRoomIn n watch.new }
    ensures room { OnOk result (HasRoomIn steps watch.new) }
    ensures invariant { watch.new.invariant ≡ watch.old.invariant }
{
    reserve_tallies(&mut watch.tallies, steps)?;
    reserve_marks(&watch.tallies, &mut watch.broken, steps)
}

/// Makes room in all watches, and says whether there was memory.
fn prepare_all(watches: &mut [Watch], steps: usize) -> Result<(), AllocError>
    requires { steps < 256 }
    ensures watched { (s : State) → AreWatches s watches.old → AreWatches s watches.new }
    ensures kept { (n : ℕ) → HaveRoom n watches.old → HaveRoom n watches.new }
    ensures room { OnOk result (HaveRoom steps watches.new) }
    ensures invariants { map (λ w. w.invariant) watches.new ≡ map (λ w. w.invariant) watches.old }
{
    for watch in watches.iter_mut() {
        prepare_watch(watch, steps)?;
    }
    Ok(())
}

/// Makes room in the tables.
fn reserve_tables(
    facts: &mut HashSet<FactKey>,
    amounts: &mut HashMap<Spot, i128>,
    steps: usize,
) -> Result<(), AllocError>
    ensures content { content facts.new amounts.new ≡ content facts.old amounts.old }
    ensures facts { bag.spare facts.old ≤ bag.spare facts.new }
    ensures amounts { hash.spare amounts.old ≤ hash.spare amounts.new }
    ensures room { OnOk result ((steps ≤ bag.spare facts.new) × (steps ≤ hash.spare amounts.new)) }
{
    facts.reserve(steps)?;
    amounts.reserve(steps)
}

/// Makes room for so many steps. Nothing else changes, whatever the answer.
pub fn prepare(
    facts: &mut HashSet<FactKey>,
    amounts: &mut HashMap<Spot, i128>,
    watches: &mut [Watch],
    sieves: &mut [Sieve],
    room: u64,
    steps: usize,
) -> Result<(), AllocError>
    requires few { steps < 256 }
    requires sound { AreSound facts.old amounts.old watches.old sieves.old room }
    ensures content { content facts.new amounts.new ≡ content facts.old amounts.old }
    ensures kept { AreSound facts.new amounts.new watches.new sieves.new room }
    ensures room { OnOk result (AreSound facts.new amounts.new watches.new sieves.new steps) }
    ensures invariants { map (λ w. w.invariant) watches.new ≡ map (λ w. w.invariant) watches.old }
{
    let _room = room;
    reserve_tables(facts, amounts, steps)?;
    prepare_all(watches, steps)?;
    prepare_sieves(sieves, steps)
}
