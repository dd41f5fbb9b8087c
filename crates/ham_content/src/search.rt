//! Rows found by a pattern, or by their key in a sieve, without a look at the others.

ghost use Rattle.std.specs.Prelude.{◌≡◌, ◌↔◌, ℕ, ◌-◌, ◌==◌, ◌&&◌, true, false, List, MatchOption, IsTrue, slice_index};
ghost use Rattle.std.specs.List.{list_any, find};
ghost use Rattle.std.specs.HashSet as bag;
ghost use Rattle.ham_steps.specs.Pattern.{matches};
ghost use Rattle.ham_steps.specs.Content as contents;
ghost use Rattle.ham_steps.specs.Content.{rows};
ghost use Rattle.ham_content.specs.Kept.{content, fact, same_fact};
ghost use Rattle.ham_content.specs.Counted.{at_columns};
ghost use Rattle.ham_content.specs.Seats.{IsSieve, AreSieves};

use crate::seats::row_at;
use crate::sieve::Sieve;
use crate::tables::{FactKey, Spot, has_row};
use crate::tally::count_at;
use ham_steps::{Row, constants, row_matches};
use ham_syntax::limits::MAX_COLUMNS;
use ham_syntax::{Cols, Term};
use std::collections::{HashMap, HashSet};

/// A test of rows, which can be made where `can_pass` holds.
pub trait RowTest {
    ghost use Rattle.std.specs.Prelude.{◌≡◌, ℕ, Bool, List};

    ghost can_pass: { Self → Type 0 };

    ghost test: { Self → List ℕ → Bool };

    fn passes(&self, row: &Row) -> bool
        requires { can_pass self.now }
        ensures { result ≡ test self.now row.now };
}

/// A row at the key that fails the test. The rows at the key are looked through, from the last on.
pub fn failing_at<T: RowTest>(
    facts: &HashSet<FactKey>,
    amounts: &HashMap<Spot, i128>,
    sieve: &Sieve,
    key: &Row,
    test: &T,
) -> Option<Row>
    requires sieve { IsSieve (content facts.now amounts.now) sieve.now }
    requires can { T.can_pass test.now }
    ensures { MatchOption result ((x : List ℕ) → contents.has (content facts.now amounts.now) sieve.now.relation x ≡ true → at_columns sieve.now.columns x ≡ key.now → T.test test.now x ≡ true) (λ row. (contents.has (content facts.now amounts.now) sieve.now.relation row ≡ true) × (at_columns sieve.now.columns row ≡ key.now) × (T.test test.now row ≡ false)) }
{
    let mut left = count_at(&sieve.tallies, key);
    while left > 0 {
        left -= 1;
        if let Some(row) = row_at(&sieve.seats, *key, left) {
            if !test.passes(&row) {
                return Some(row);
            }
        }
    }
    None
}

/// Passes a row that doesn't match the pattern.
#[derive(Clone, Copy)]
struct Misses<'a> {
    pattern: &'a [Term],
}

impl RowTest for Misses<'_> {
    ghost use Rattle.std.specs.Prelude.{not};
    ghost use Rattle.ham_steps.specs.Pattern.{matches};

    ghost can_pass = { λ t. Unit {0} };

    ghost test = { λ t x. not (matches t.pattern.now x) };

    fn passes(&self, row: &Row) -> bool {
        !row_matches(self.pattern, row.items())
    }
}

/// The id that each row which the pattern matches has at the column, where the pattern says it. Columns count from 1.
fn id_in(column: u8, pattern: &[Term]) -> Option<u64>
    ensures { MatchOption result (Unit {0}) (λ id. (x : List ℕ) → matches pattern.now x ≡ true → slice_index x (column - 1) ≡ id) }
{
    match pattern.get(usize::from(column).saturating_sub(1)) {
        Some(Term::Const(id)) => Some(*id),
        _ => None,
    }
}

/// The key of each row that the pattern matches, where the pattern says it.
pub fn key_in(columns: &Cols, pattern: &[Term]) -> Option<Row>
    ensures { MatchOption result (Unit {0}) (λ key. (x : List ℕ) → matches pattern.now x ≡ true → at_columns columns.now x ≡ key) }
{
    let columns = columns.items();
    let mut ids = [0u64; MAX_COLUMNS];
    for (i, column) in columns.iter().enumerate() {
        ids[i] = id_in(*column, pattern)?;
    }
    Some(Row::of(&ids[..columns.len()]))
}

/// Whether the fact is one of the relation that matches the pattern.
fn is_match(fact: &FactKey, relation: u8, pattern: &[Term]) -> bool
    ensures { result ≡ ((fact.now.relation == relation) && matches pattern.now fact.now.row) }
{
    fact.relation == relation && row_matches(pattern, fact.row.items())
}

/// The first fact of the relation that matches the pattern, in whatever order the table has.
fn find_fact(facts: &HashSet<FactKey>, relation: u8, pattern: &[Term]) -> Option<FactKey>
    ensures { result ≡ find (λ f. (f.relation == relation) && matches pattern.now f.row) facts.now.keys }
{
    facts
        .iter()
        .copied()
        .find(|fact| is_match(fact, relation, pattern))
}

/// A row of the relation that matches the pattern, found by a look through the facts.
fn scan_for_match(facts: &HashSet<FactKey>, relation: u8, pattern: &[Term]) -> Option<Row>
    ensures { MatchOption result (list_any (λ f. (f.relation == relation) && matches pattern.now f.row) facts.now.keys ≡ false) (λ row. (bag.contains same_fact facts.now (fact relation row) ≡ true) × (matches pattern.now row ≡ true)) }
{
    match find_fact(facts, relation, pattern) {
        Some(fact) => Some(fact.row),
        None => None,
    }
}

/// A row of the relation that matches the pattern, where there is one. It is found in the first sieve whose columns the
/// pattern says; where none fits, the facts are looked through.
pub fn find_match(
    facts: &HashSet<FactKey>,
    amounts: &HashMap<Spot, i128>,
    sieves: &[Sieve],
    relation: u8,
    pattern: &[Term],
) -> Option<Row>
    requires sieves { AreSieves (content facts.now amounts.now) sieves.now }
    ensures { MatchOption result (list_any (λ f. (f.relation == relation) && matches pattern.now f.row) facts.now.keys ≡ false) (λ row. (bag.contains same_fact facts.now (fact relation row) ≡ true) × (matches pattern.now row ≡ true)) }
{
    for sieve in sieves {
        if sieve.relation == relation {
            if let Some(key) = key_in(&sieve.columns, pattern) {
                return failing_at(facts, amounts, sieve, &key, &Misses { pattern });
            }
        }
    }
    scan_for_match(facts, relation, pattern)
}

/// Whether a row of the relation matches the pattern.
pub fn some_match(
    facts: &HashSet<FactKey>,
    amounts: &HashMap<Spot, i128>,
    sieves: &[Sieve],
    relation: u8,
    pattern: &[Term],
) -> bool
    requires sieves { AreSieves (content facts.now amounts.now) sieves.now }
    ensures { result ≡ list_any (matches pattern.now) (rows (content facts.now amounts.now) relation) }
{
    match constants(pattern) {
        Some(row) => has_row(facts, amounts, relation, row),
        None => find_match(facts, amounts, sieves, relation, pattern).is_some(),
    }
}
