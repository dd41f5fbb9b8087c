//! How many rows stand at a key after steps.

ghost use Rattle.std.specs.Prelude.{◌≡◌, ℕ, ◌+◌, ◌^◌, ◌<◌, ◌≤◌, not, ◌&&◌, true, false, ◌-◌, ◌==◌, if◌then◌else◌, MatchOption};
ghost use Rattle.ham_steps.specs.Content as contents;
ghost use Rattle.ham_steps.specs.Steps.{after_step, after_steps};
ghost use Rattle.ham_content.specs.Numbers.{same};
ghost use Rattle.ham_content.specs.Tallies.{count};
ghost use Rattle.ham_content.specs.Kept.{content};
ghost use Rattle.ham_content.specs.Counted.{at_columns, tally};

use crate::ahead::{Ahead, is_there};
use ham_content::columns::project;
use ham_content::tally::count_at;
use ham_steps::{Row, Step, constants};
use ham_syntax::Cols;
use std::collections::HashMap;

/// Whether a row of this relation counts at the key.
fn counts(into: u8, row: &Row, relation: u8, columns: &Cols, key: &Row) -> bool
    ensures { result ≡ ((relation == into) && same (at_columns columns.now row.now) key.now) }
{
    relation == into && project(columns, row) == *key
}

/// The number, with one more where a row comes.
fn raised(number: u64, comes: bool) -> u64
    requires { number < 2 ^ 64 - 1 }
    ensures { result ≡ number + (if comes then 1 else 0) }
{
    if comes { number + 1 } else { number }
}

/// The number, with one less where a row goes.
fn lowered(number: u64, goes: bool) -> u64
    requires { goes ≡ true → 0 < number }
    ensures { result + (if goes then 1 else 0) ≡ number }
{
    if goes { number - 1 } else { number }
}

/// Whether a row of this relation that counts at the key comes anew after the steps.
fn comes(earlier: &Ahead, into: u8, row: &Row, relation: u8, columns: &Cols, key: &Row) -> bool
    ensures { result ≡ (not (contents.has (after_steps earlier.now.steps.now (content earlier.now.facts.now earlier.now.amounts.now)) into row.now) && ((relation == into) && same (at_columns columns.now row.now) key.now)) }
{
    !is_there(earlier, into, row) && counts(into, row, relation, columns, key)
}

/// Whether a row of this relation that counts at the key is there after the steps.
fn goes(earlier: &Ahead, from: u8, row: &Row, relation: u8, columns: &Cols, key: &Row) -> bool
    ensures { result ≡ (contents.has (after_steps earlier.now.steps.now (content earlier.now.facts.now earlier.now.amounts.now)) from row.now && ((relation == from) && same (at_columns columns.now row.now) key.now)) }
{
    is_there(earlier, from, row) && counts(from, row, relation, columns, key)
}

/// How many rows stand at the key once the step is taken after earlier ones, after which so many do. None where the step
/// deletes by `_`.
fn tally_then(
    earlier: &Ahead,
    step: &Step,
    relation: u8,
    columns: &Cols,
    key: &Row,
    number: u64,
) -> Option<u64>
    requires number { number ≡ tally (after_steps earlier.now.steps.now (content earlier.now.facts.now earlier.now.amounts.now)) relation columns.now key.now }
    requires fits { number < 2 ^ 64 - 1 }
    ensures { MatchOption result (Unit {0}) (λ n. (n ≡ tally (after_step step.now (after_steps earlier.now.steps.now (content earlier.now.facts.now earlier.now.amounts.now))) relation columns.now key.now) × (n ≤ number + 1)) }
{
    match step {
        Step::Insert {
            relation: into,
            row,
        } => {
            let new = comes(earlier, *into, row, relation, columns, key);
            Some(raised(number, new))
        }
        Step::Delete {
            relation: from,
            pattern,
        } => {
            let row = constants(pattern.items())?;
            let old = goes(earlier, *from, &row, relation, columns, key);
            Some(lowered(number, old))
        }
        Step::Change { .. } => Some(number),
    }
}

/// How many rows stand at the key after the steps. None where one of them deletes by `_`.
pub fn tally_after(
    ahead: &Ahead,
    tallies: &HashMap<Row, u64>,
    relation: u8,
    columns: &Cols,
    key: &Row,
) -> Option<u64>
    requires tallied { count tallies.now key.now ≡ tally (content ahead.now.facts.now ahead.now.amounts.now) relation columns.now key.now }
    ensures { MatchOption result (Unit {0}) (λ n. n ≡ tally (after_steps ahead.now.steps.now (content ahead.now.facts.now ahead.now.amounts.now)) relation columns.now key.now) }
{
    // So few that a number fits.
    let _few = ahead.facts.len();
    let steps = ahead.steps;
    let mut number = count_at(tallies, key);
    for (i, step) in steps.iter().enumerate() {
        let earlier = ahead.first(i);
        number = tally_then(&earlier, step, relation, columns, key, number)?;
    }
    Some(number)
}
