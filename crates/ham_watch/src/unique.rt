//! Keys that at most one row may have: how many have each, and which too many have, before a row comes or goes.

ghost use Rattle.std.specs.Prelude.{◌≡◌, ℕ, ◌+◌, true, false};
ghost use Rattle.std.specs.HashMap as hash;
ghost use Rattle.std.specs.HashSet as bag;
ghost use Rattle.ham_syntax.specs.declared.object.Invariant.TheVariants as invariants;
ghost use Rattle.ham_steps.specs.Pattern.{is_row};
ghost use Rattle.ham_steps.specs.Content as contents;
ghost use Rattle.ham_steps.specs.Content.{with_row, without_rows};
ghost use Rattle.ham_content.specs.Kept.{content};
ghost use Rattle.ham_watch.specs.Watches.{IsWatchOf, HasRoomBy};

use crate::watch::{lower_if, mark_if, raise_if};
use ham_content::columns::project;
use ham_content::{FactKey, Spot};
use ham_steps::Row;
use ham_syntax::Cols;
use std::collections::{HashMap, HashSet};

/// A row that isn't there is about to come. There is room.
pub fn come_unique(
    facts: &HashSet<FactKey>,
    amounts: &HashMap<Spot, i128>,
    counts: u8,
    columns: Cols,
    tallies: &mut HashMap<Row, u64>,
    broken: &mut HashSet<Row>,
    relation: u8,
    row: Row,
)
    requires watched { IsWatchOf (content facts.now amounts.now) (invariants.Unique counts columns) tallies.old broken.old }
    requires absent { contents.has (content facts.now amounts.now) relation row ≡ false }
    requires room { HasRoomBy (invariants.Unique counts columns) 1 tallies.old broken.old }
    ensures watched { IsWatchOf (with_row (content facts.now amounts.now) relation row) (invariants.Unique counts columns) tallies.new broken.new }
    ensures room { (n : ℕ) → HasRoomBy (invariants.Unique counts columns) (n + 1) tallies.old broken.old → HasRoomBy (invariants.Unique counts columns) n tallies.new broken.new }
{
    // So few that a number fits.
    let _few = facts.len();
    let key = project(&columns, &row);
    let number = raise_if(tallies, counts == relation, key);
    let marked = number > 1;
    mark_if(broken, counts == relation, key, marked);
}

/// A row that is there is about to go.
pub fn leave_unique(
    facts: &HashSet<FactKey>,
    amounts: &HashMap<Spot, i128>,
    counts: u8,
    columns: Cols,
    tallies: &mut HashMap<Row, u64>,
    broken: &mut HashSet<Row>,
    relation: u8,
    row: Row,
)
    requires watched { IsWatchOf (content facts.now amounts.now) (invariants.Unique counts columns) tallies.old broken.old }
    requires there { contents.has (content facts.now amounts.now) relation row ≡ true }
    ensures watched { IsWatchOf (without_rows (content facts.now amounts.now) relation (is_row row)) (invariants.Unique counts columns) tallies.new broken.new }
    ensures room { (n : ℕ) → HasRoomBy (invariants.Unique counts columns) n tallies.old broken.old → HasRoomBy (invariants.Unique counts columns) n tallies.new broken.new }
{
    let key = project(&columns, &row);
    let number = lower_if(tallies, counts == relation, key);
    let marked = number > 1;
    mark_if(broken, counts == relation, key, marked);
}
