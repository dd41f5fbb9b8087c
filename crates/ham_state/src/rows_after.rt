//! Tests of the rows that stand at a key after steps.

ghost use Rattle.std.specs.Prelude.{◌≡◌, ◌↔◌, ◌&&◌, ◌||◌, ◌==◌, ℕ, List, true, not, IsTrue};
ghost use Rattle.std.specs.List.{list_all};
ghost use Rattle.ham_steps.specs.Content.{rows};
ghost use Rattle.ham_steps.specs.Steps.{after_steps};
ghost use Rattle.ham_content.specs.Kept.{content};
ghost use Rattle.ham_state.specs.Ahead.{is_elsewhere, unless_gone, put_passes};

use crate::ahead::{Ahead, is_there};
use ham_content::search::failing_at;
use ham_content::{FactKey, RowTest};
use ham_steps::{Row, Step};
use ham_syntax::Cols;

/// Whether the row passes, if it is in the relation after the steps.
fn passes_or_gone<T: RowTest>(test: &T, ahead: &Ahead, relation: u8, row: &Row) -> bool
    requires { T.can_pass test.now }
    ensures { result ≡ unless_gone (content ahead.now.facts.now ahead.now.amounts.now) ahead.now.steps.now relation (T.test test.now) row.now }
{
    !is_there(ahead, relation, row) || test.passes(row)
}

/// Passes a row that passes the test or is gone after the steps.
#[derive(Clone, Copy)]
struct PassesOrGone<'a, T> {
    test: &'a T,
    ahead: &'a Ahead<'a>,
    relation: u8,
}

impl<T: RowTest> RowTest for PassesOrGone<'_, T> {
    ghost use Rattle.ham_content.specs.Kept.{content};
    ghost use Rattle.ham_state.specs.Ahead.{unless_gone};

    ghost can_pass = { λ t. T.can_pass t.test.now };

    ghost test = { λ t x. unless_gone (content t.ahead.now.facts.now t.ahead.now.amounts.now) t.ahead.now.steps.now t.relation (T.test t.test.now) x };

    fn passes(&self, row: &Row) -> bool {
        passes_or_gone(self.test, self.ahead, self.relation, row)
    }
}

/// Of a fact, if it is one of the relation.
fn fact_passes<T: RowTest>(test: &T, ahead: &Ahead, relation: u8, fact: &FactKey) -> bool
    requires { T.can_pass test.now }
    ensures { result ≡ (not (fact.now.relation == relation) || unless_gone (content ahead.now.facts.now ahead.now.amounts.now) ahead.now.steps.now relation (T.test test.now) fact.now.row) }
{
    fact.relation != relation || passes_or_gone(test, ahead, relation, &fact.row)
}

/// Of all facts.
fn facts_pass<T: RowTest>(test: &T, ahead: &Ahead, relation: u8) -> bool
    requires { T.can_pass test.now }
    ensures { result ≡ list_all (λ f. not (f.relation == relation) || unless_gone (content ahead.now.facts.now ahead.now.amounts.now) ahead.now.steps.now relation (T.test test.now) f.row) ahead.now.facts.now.keys }
{
    ahead
        .facts
        .iter()
        .all(|fact| fact_passes(test, ahead, relation, fact))
}

/// Whether the columns are the same, in the same order.
fn are_same(columns: &Cols, others: &Cols) -> bool
    ensures { IsTrue result ↔ (columns.now ≡ others.now) }
{
    columns.items() == others.items()
}

/// Of rows that are kept in the relation. Those at the key are looked at where a sieve has these columns; elsewhere all.
fn kept_pass<T: RowTest>(test: &T, ahead: &Ahead, relation: u8, columns: &Cols, key: &Row) -> bool
    requires can { T.can_pass test.now }
    requires elsewhere { (x : List ℕ) → is_elsewhere columns.now key.now x ≡ true → T.test test.now x ≡ true }
    ensures { result ≡ list_all (λ f. not (f.relation == relation) || unless_gone (content ahead.now.facts.now ahead.now.amounts.now) ahead.now.steps.now relation (T.test test.now) f.row) ahead.now.facts.now.keys }
{
    for sieve in ahead.sieves {
        if sieve.relation == relation && are_same(&sieve.columns, columns) {
            let remaining = PassesOrGone {
                test,
                ahead,
                relation,
            };
            return failing_at(ahead.facts, ahead.amounts, sieve, key, &remaining).is_none();
        }
    }
    facts_pass(test, ahead, relation)
}

/// Of the row that the step inserts into the relation, if it inserts one.
fn put_passes<T: RowTest>(test: &T, ahead: &Ahead, relation: u8, step: &Step) -> bool
    requires { T.can_pass test.now }
    ensures { result ≡ put_passes (unless_gone (content ahead.now.facts.now ahead.now.amounts.now) ahead.now.steps.now relation (T.test test.now)) relation step.now }
{
    match step {
        Step::Insert {
            relation: into,
            row,
        } => *into != relation || passes_or_gone(test, ahead, relation, row),
        Step::Delete { .. } => true,
        Step::Change { .. } => true,
    }
}

/// Of rows that the steps insert into the relation.
fn puts_pass<T: RowTest>(test: &T, ahead: &Ahead, relation: u8) -> bool
    requires { T.can_pass test.now }
    ensures { result ≡ list_all (put_passes (unless_gone (content ahead.now.facts.now ahead.now.amounts.now) ahead.now.steps.now relation (T.test test.now)) relation) ahead.now.steps.now }
{
    ahead
        .steps
        .iter()
        .all(|step| put_passes(test, ahead, relation, step))
}

/// Whether each row that is in the relation after the steps passes, where each row at another key does.
pub fn each_passes<T: RowTest>(
    test: &T,
    ahead: &Ahead,
    relation: u8,
    columns: &Cols,
    key: &Row,
) -> bool
    requires can { T.can_pass test.now }
    requires elsewhere { (x : List ℕ) → is_elsewhere columns.now key.now x ≡ true → T.test test.now x ≡ true }
    ensures { result ≡ list_all (T.test test.now) (rows (after_steps ahead.now.steps.now (content ahead.now.facts.now ahead.now.amounts.now)) relation) }
{
    kept_pass(test, ahead, relation, columns, key) && puts_pass(test, ahead, relation)
}
