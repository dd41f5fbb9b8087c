//! A content, and steps that are about to be taken.

ghost use Rattle.std.specs.Prelude.{◌≡◌, ◌^◌, ◌≤◌, length, take};
ghost use Rattle.std.specs.List.{AllByRecursion};
ghost use Rattle.std.proofs.Props.{props};
ghost use Rattle.ham_syntax.specs.declared.limits.TheConstants.{MAX_PARTS};
ghost use Rattle.ham_steps.specs.Content as contents;
ghost use Rattle.ham_steps.specs.Steps.{after_steps, IsWithin};
ghost use Rattle.ham_content.specs.Kept.{content};
ghost use Rattle.ham_content.specs.Seats.{AreSieves};
ghost use Rattle.ham_state.specs.Small.{IsWithin-prop};

use ham_content::tables::has_row;
use ham_content::{FactKey, Sieve, Spot};
use ham_steps::{Row, Step, last_touch};
use std::collections::{HashMap, HashSet};

/// The tables of a content, its sieves, and steps that are about to be taken. What is asked of the content after the
/// steps is looked up before they are taken, without memory.
#[derive(Clone, Copy)]
pub struct Ahead<'a> {
    pub facts: &'a HashSet<FactKey>,
    pub amounts: &'a HashMap<Spot, i128>,
    pub sieves: &'a [Sieve],
    pub steps: &'a [Step],
    pub ghost sieved: { AreSieves (content facts.now amounts.now) sieves.now } by { Prim.hlevel props },
    pub ghost few: { length steps.now ≤ MAX_PARTS },
    pub ghost small: { AllByRecursion (IsWithin (2 ^ 32)) steps.now } by { Prim.hlevel (props, IsWithin-prop) },
}

impl<'a> Ahead<'a> {
    /// Ahead of so many of the steps.
    pub fn first(&self, count: usize) -> Ahead<'a>
        requires { count ≤ length self.now.steps.now }
        ensures { after_steps result.steps.now (content result.facts.now result.amounts.now) ≡ after_steps (take count self.now.steps.now) (content self.now.facts.now self.now.amounts.now) }
    {
        Ahead {
            facts: self.facts,
            amounts: self.amounts,
            sieves: self.sieves,
            steps: &self.steps[..count],
        }
    }
}

/// Whether the row is in the relation after the steps.
pub fn is_there(ahead: &Ahead, relation: u8, row: &Row) -> bool
    ensures { result ≡ contents.has (after_steps ahead.now.steps.now (content ahead.now.facts.now ahead.now.amounts.now)) relation row.now }
{
    match last_touch(ahead.steps, relation, row.items()) {
        Some(puts) => puts,
        None => has_row(ahead.facts, ahead.amounts, relation, *row),
    }
}
