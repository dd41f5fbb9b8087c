//! All watches of a state, before a row comes, before one goes, and before a counter changes.

ghost use Rattle.std.specs.Prelude.{◌≡◌, ℕ, ◌+◌, ◌^◌, ◌<◌, ◌≤◌, ◌+ℤ◌, true, false, not, ◌&&◌, ◌==◌, map, nat_abs, int_le};
ghost use Rattle.std.specs.HashMap as hash;
ghost use Rattle.std.specs.HashSet as bag;
ghost use Rattle.ham_syntax.specs.declared.object.Invariant.TheVariants as invariants;
ghost use Rattle.ham_steps.specs.Pattern.{is_row};
ghost use Rattle.ham_steps.specs.Content as contents;
ghost use Rattle.ham_steps.specs.Content.{with_row, without_rows, with_change};
ghost use Rattle.ham_content.specs.Kept.{content};
ghost use Rattle.ham_watch.specs.Watches.{IsWatch, HasRoomIn, AreWatches, HaveRoom};

use crate::reference::{come_reference, leave_reference};
use crate::unique::{come_unique, leave_unique};
use crate::watch::{Watch, mark_if};
use ham_content::{FactKey, Spot};
use ham_steps::Row;
use ham_syntax::Invariant;
use std::collections::{HashMap, HashSet};

/// A row that isn't there is about to come. There is room.
fn come(
    facts: &HashSet<FactKey>,
    amounts: &HashMap<Spot, i128>,
    watch: &mut Watch,
    relation: u8,
    row: Row,
)
    requires watched { IsWatch (content facts.now amounts.now) watch.old }
    requires absent { contents.has (content facts.now amounts.now) relation row ≡ false }
    requires room { HasRoomIn 1 watch.old }
    ensures watched { IsWatch (with_row (content facts.now amounts.now) relation row) watch.new }
    ensures room { (n : ℕ) → HasRoomIn (n + 1) watch.old → HasRoomIn n watch.new }
    ensures invariant { watch.new.invariant ≡ watch.old.invariant }
{
    let invariant = watch.invariant;
    let tallies = &mut watch.tallies;
    let broken = &mut watch.broken;
    match invariant {
        Invariant::Reference { from, columns, to } => {
            come_reference(
                facts, amounts, from, columns, to, tallies, broken, relation, row,
            );
        }
        Invariant::Unique {
            relation: counts,
            columns,
        } => {
            come_unique(
                facts, amounts, counts, columns, tallies, broken, relation, row,
            );
        }
        Invariant::Low { .. } => {}
        Invariant::High { .. } => {}
    }
}

/// A row that is there is about to go.
fn leave(
    facts: &HashSet<FactKey>,
    amounts: &HashMap<Spot, i128>,
    watch: &mut Watch,
    relation: u8,
    row: Row,
)
    requires watched { IsWatch (content facts.now amounts.now) watch.old }
    requires there { contents.has (content facts.now amounts.now) relation row ≡ true }
    requires room { HasRoomIn 0 watch.old }
    ensures watched { IsWatch (without_rows (content facts.now amounts.now) relation (is_row row)) watch.new }
    ensures room { (n : ℕ) → HasRoomIn n watch.old → HasRoomIn n watch.new }
    ensures invariant { watch.new.invariant ≡ watch.old.invariant }
{
    let invariant = watch.invariant;
    let tallies = &mut watch.tallies;
    let broken = &mut watch.broken;
    match invariant {
        Invariant::Reference { from, columns, to } => {
            leave_reference(
                facts, amounts, from, columns, to, tallies, broken, relation, row,
            );
        }
        Invariant::Unique {
            relation: counts,
            columns,
        } => {
            leave_unique(
                facts, amounts, counts, columns, tallies, broken, relation, row,
            );
        }
        Invariant::Low { .. } => {}
        Invariant::High { .. } => {}
    }
}

/// A row that isn't there is about to come. Each watch has room.
pub fn come_all(
    facts: &HashSet<FactKey>,
    amounts: &HashMap<Spot, i128>,
    watches: &mut [Watch],
    relation: u8,
    row: Row,
)
    requires watched { AreWatches (content facts.now amounts.now) watches.old }
    requires absent { contents.has (content facts.now amounts.now) relation row ≡ false }
    requires room { HaveRoom 1 watches.old }
    ensures watched { AreWatches (with_row (content facts.now amounts.now) relation row) watches.new }
    ensures room { (n : ℕ) → HaveRoom (n + 1) watches.old → HaveRoom n watches.new }
    ensures invariants { map (λ w. w.invariant) watches.new ≡ map (λ w. w.invariant) watches.old }
{
    for watch in watches.iter_mut() {
        come(facts, amounts, watch, relation, row);
    }
}

/// A row that is there is about to go.
pub fn leave_all(
    facts: &HashSet<FactKey>,
    amounts: &HashMap<Spot, i128>,
    watches: &mut [Watch],
    relation: u8,
    row: Row,
)
    requires watched { AreWatches (content facts.now amounts.now) watches.old }
    requires there { contents.has (content facts.now amounts.now) relation row ≡ true }
    requires room { HaveRoom 0 watches.old }
    ensures watched { AreWatches (without_rows (content facts.now amounts.now) relation (is_row row)) watches.new }
    ensures room { (n : ℕ) → HaveRoom n watches.old → HaveRoom n watches.new }
    ensures invariants { map (λ w. w.invariant) watches.new ≡ map (λ w. w.invariant) watches.old }
{
    for watch in watches.iter_mut() {
        leave(facts, amounts, watch, relation, row);
    }
}

/// The number is below the limit.
fn is_below(limit: i64, number: i128) -> bool
    ensures { result ≡ not (int_le limit number) }
{
    !(i128::from(limit) <= number)
}

/// The number is above the limit.
fn is_above(limit: i64, number: i128) -> bool
    ensures { result ≡ not (int_le number limit) }
{
    !(number <= i128::from(limit))
}

/// The counter at the key is about to change by so much, to the number. There is room.
fn turn(
    facts: &HashSet<FactKey>,
    amounts: &HashMap<Spot, i128>,
    watch: &mut Watch,
    counter: u8,
    key: u64,
    by: i128,
    number: i128,
)
    requires watched { IsWatch (content facts.now amounts.now) watch.old }
    requires number { number ≡ (contents.value (content facts.now amounts.now) counter key +ℤ by) }
    requires room { HasRoomIn 1 watch.old }
    ensures watched { IsWatch (with_change (content facts.now amounts.now) counter key by) watch.new }
    ensures room { (n : ℕ) → HasRoomIn (n + 1) watch.old → HasRoomIn n watch.new }
    ensures invariant { watch.new.invariant ≡ watch.old.invariant }
{
    let invariant = watch.invariant;
    let broken = &mut watch.broken;
    match invariant {
        Invariant::Reference { .. } => {}
        Invariant::Unique { .. } => {}
        Invariant::Low {
            counter: limited,
            limit,
        } => {
            let marked = is_below(limit, number);
            let spot = Row::one(key);
            mark_if(broken, limited == counter, spot, marked);
        }
        Invariant::High {
            counter: limited,
            limit,
        } => {
            let marked = is_above(limit, number);
            let spot = Row::one(key);
            mark_if(broken, limited == counter, spot, marked);
        }
    }
}

/// The counter at the key is about to change by so much, to the number. Each watch has room.
pub fn turn_all(
    facts: &HashSet<FactKey>,
    amounts: &HashMap<Spot, i128>,
    watches: &mut [Watch],
    counter: u8,
    key: u64,
    by: i128,
    number: i128,
)
    requires watched { AreWatches (content facts.now amounts.now) watches.old }
    requires number { number ≡ (contents.value (content facts.now amounts.now) counter key +ℤ by) }
    requires room { HaveRoom 1 watches.old }
    ensures watched { AreWatches (with_change (content facts.now amounts.now) counter key by) watches.new }
    ensures room { (n : ℕ) → HaveRoom (n + 1) watches.old → HaveRoom n watches.new }
    ensures invariants { map (λ w. w.invariant) watches.new ≡ map (λ w. w.invariant) watches.old }
{
    for watch in watches.iter_mut() {
        turn(facts, amounts, watch, counter, key, by, number);
    }
}
