//! One change of a state: of its content, and of all that is kept beside it.

ghost use Rattle.std.specs.Prelude.{◌≡◌, ℕ, ◌+◌, ◌-◌, ◌^◌, ◌<◌, ◌≤◌, ◌+ℤ◌, true, map, nat_abs};
ghost use Rattle.std.specs.HashMap as hash;
ghost use Rattle.std.specs.HashSet as bag;
ghost use Rattle.ham_steps.specs.Pattern.{is_row};
ghost use Rattle.ham_steps.specs.Content as contents;
ghost use Rattle.ham_steps.specs.Content.{with_row, without_rows, with_change};
ghost use Rattle.ham_content.specs.Kept.{content};
ghost use Rattle.ham_watch.specs.Watches.{AreSound};

use crate::watch::Watch;
use crate::watches::{come_all, leave_all, turn_all};
use ham_content::sieves::{sit_all, stand_all};
use ham_content::tables::{change, has_row, put, take, value};
use ham_content::{FactKey, Sieve, Spot};
use ham_steps::Row;
use std::collections::{HashMap, HashSet};

/// Inserts the row, for which there is room.
pub fn put_row(
    facts: &mut HashSet<FactKey>,
    amounts: &HashMap<Spot, i128>,
    watches: &mut [Watch],
    sieves: &mut [Sieve],
    room: u64,
    relation: u8,
    row: Row,
)
    requires sound { AreSound facts.old amounts.now watches.old sieves.old room }
    requires room { 0 < room }
    ensures content { content facts.new amounts.now ≡ with_row (content facts.old amounts.now) relation row }
    ensures sound { AreSound facts.new amounts.now watches.new sieves.new (room - 1) }
    ensures invariants { map (λ w. w.invariant) watches.new ≡ map (λ w. w.invariant) watches.old }
{
    let _room = room;
    if !has_row(facts, amounts, relation, row) {
        come_all(facts, amounts, watches, relation, row);
        sit_all(facts, amounts, sieves, relation, row);
        put(facts, amounts, relation, row);
    }
}

/// Deletes the row. No memory is taken.
pub fn take_row(
    facts: &mut HashSet<FactKey>,
    amounts: &HashMap<Spot, i128>,
    watches: &mut [Watch],
    sieves: &mut [Sieve],
    room: u64,
    relation: u8,
    row: Row,
)
    requires sound { AreSound facts.old amounts.now watches.old sieves.old room }
    ensures content { content facts.new amounts.now ≡ without_rows (content facts.old amounts.now) relation (is_row row) }
    ensures sound { AreSound facts.new amounts.now watches.new sieves.new room }
    ensures invariants { map (λ w. w.invariant) watches.new ≡ map (λ w. w.invariant) watches.old }
    ensures fewer { contents.has (content facts.old amounts.now) relation row ≡ true → bag.hash_set_len facts.new < bag.hash_set_len facts.old }
{
    let _room = room;
    if has_row(facts, amounts, relation, row) {
        leave_all(facts, amounts, watches, relation, row);
        stand_all(facts, amounts, sieves, relation, row);
        take(facts, amounts, relation, row);
    }
}

/// Adds to the counter at the key, for which there is room.
pub fn add(
    facts: &HashSet<FactKey>,
    amounts: &mut HashMap<Spot, i128>,
    watches: &mut [Watch],
    sieves: &[Sieve],
    room: u64,
    counter: u8,
    key: u64,
    by: i128,
)
    requires sound { AreSound facts.now amounts.old watches.old sieves.now room }
    requires room { 0 < room }
    requires before { nat_abs (contents.value (content facts.now amounts.old) counter key) ≤ 2 ^ 110 }
    requires step { nat_abs by ≤ 2 ^ 50 }
    ensures content { content facts.now amounts.new ≡ with_change (content facts.now amounts.old) counter key by }
    ensures sound { AreSound facts.now amounts.new watches.new sieves.now (room - 1) }
    ensures invariants { map (λ w. w.invariant) watches.new ≡ map (λ w. w.invariant) watches.old }
{
    let _room = room;
    let _sieves = sieves;
    let before = value(facts, amounts, counter, key);
    let number = before + by;
    turn_all(facts, amounts, watches, counter, key, by, number);
    change(facts, amounts, counter, key, by, number);
}
