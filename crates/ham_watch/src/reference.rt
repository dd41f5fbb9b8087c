//! References: how many rows refer to each key, and what is referred to in vain, before a row comes or goes.

ghost use Rattle.std.specs.Prelude.{◌≡◌, ℕ, ◌+◌, ◌<◌, ◌≤◌, ◌&&◌, not, true, false, nat_lt, ◌==◌};
ghost use Rattle.std.specs.HashMap as hash;
ghost use Rattle.std.specs.HashSet as bag;
ghost use Rattle.ham_syntax.specs.declared.object.Invariant.TheVariants as invariants;
ghost use Rattle.ham_content.specs.Numbers.{same};
ghost use Rattle.ham_steps.specs.Pattern.{is_row};
ghost use Rattle.ham_steps.specs.Content as contents;
ghost use Rattle.ham_steps.specs.Content.{with_row, without_rows};
ghost use Rattle.ham_content.specs.Kept.{content};
ghost use Rattle.ham_watch.specs.Watches.{IsWatchOf, HasRoomBy};

use crate::watch::{lower_if, mark_if, raise_if};
use ham_content::columns::project;
use ham_content::tables::has_row;
use ham_content::tally::count_at;
use ham_content::{FactKey, Spot};
use ham_steps::Row;
use ham_syntax::Cols;
use std::collections::{HashMap, HashSet};

/// A key that so many refer to is broken where it isn't there.
fn is_in_vain(number: u64, there: bool) -> bool
    ensures { result ≡ (nat_lt 0 number && not there) }
{
    number > 0 && !there
}

/// Whether the two are one fact.
fn is_this(relation: u8, row: &Row, other: u8, key: &Row) -> bool
    ensures { result ≡ ((other == relation) && same row.now key.now) }
{
    other == relation && row == key
}

/// Whether the key is there once the row has come.
fn is_there_with(
    facts: &HashSet<FactKey>,
    amounts: &HashMap<Spot, i128>,
    relation: u8,
    row: Row,
    to: u8,
    key: Row,
) -> bool
    ensures { result ≡ contents.has (with_row (content facts.now amounts.now) relation row) to key }
{
    if is_this(relation, &row, to, &key) {
        true
    } else {
        has_row(facts, amounts, to, key)
    }
}

/// Whether the key is there once the row has gone.
fn is_there_without(
    facts: &HashSet<FactKey>,
    amounts: &HashMap<Spot, i128>,
    relation: u8,
    row: Row,
    to: u8,
    key: Row,
) -> bool
    ensures { result ≡ contents.has (without_rows (content facts.now amounts.now) relation (is_row row)) to key }
{
    if is_this(relation, &row, to, &key) {
        false
    } else {
        has_row(facts, amounts, to, key)
    }
}

/// A row that isn't there is about to come. There is room.
pub fn come_reference(
    facts: &HashSet<FactKey>,
    amounts: &HashMap<Spot, i128>,
    from: u8,
    columns: Cols,
    to: u8,
    tallies: &mut HashMap<Row, u64>,
    broken: &mut HashSet<Row>,
    relation: u8,
    row: Row,
)
    requires watched { IsWatchOf (content facts.now amounts.now) (invariants.Reference from columns to) tallies.old broken.old }
    requires absent { contents.has (content facts.now amounts.now) relation row ≡ false }
    requires room { HasRoomBy (invariants.Reference from columns to) 1 tallies.old broken.old }
    ensures watched { IsWatchOf (with_row (content facts.now amounts.now) relation row) (invariants.Reference from columns to) tallies.new broken.new }
    ensures room { (n : ℕ) → HasRoomBy (invariants.Reference from columns to) (n + 1) tallies.old broken.old → HasRoomBy (invariants.Reference from columns to) n tallies.new broken.new }
{
    // So few that a number fits.
    let _few = facts.len();
    let _marks = broken.len();
    let key = project(&columns, &row);
    let number = raise_if(tallies, from == relation, key);
    let there = is_there_with(facts, amounts, relation, row, to, key);
    let marked = is_in_vain(number, there);
    mark_if(broken, from == relation, key, marked);
    mark_if(broken, to == relation, row, false);
}

/// A row that is there is about to go. What becomes broken has a tally, so there is room.
pub fn leave_reference(
    facts: &HashSet<FactKey>,
    amounts: &HashMap<Spot, i128>,
    from: u8,
    columns: Cols,
    to: u8,
    tallies: &mut HashMap<Row, u64>,
    broken: &mut HashSet<Row>,
    relation: u8,
    row: Row,
)
    requires watched { IsWatchOf (content facts.now amounts.now) (invariants.Reference from columns to) tallies.old broken.old }
    requires there { contents.has (content facts.now amounts.now) relation row ≡ true }
    requires room { HasRoomBy (invariants.Reference from columns to) 0 tallies.old broken.old }
    ensures watched { IsWatchOf (without_rows (content facts.now amounts.now) relation (is_row row)) (invariants.Reference from columns to) tallies.new broken.new }
    ensures room { (n : ℕ) → HasRoomBy (invariants.Reference from columns to) n tallies.old broken.old → HasRoomBy (invariants.Reference from columns to) n tallies.new broken.new }
{
    let _marks = broken.len();
    let key = project(&columns, &row);
    let number = lower_if(tallies, from == relation, key);
    let there = is_there_without(facts, amounts, relation, row, to, key);
    let marked = is_in_vain(number, there);
    mark_if(broken, from == relation, key, marked);
    let _marked = broken.len();
    let aimed = count_at(tallies, &row) > 0;
    mark_if(broken, to == relation, row, aimed);
}
