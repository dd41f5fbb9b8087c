//! Deletes by a pattern. A row that the pattern spells out is looked up; where it has `_` the rows are found by a sieve,
//! one after the other, until there is none.

ghost use Rattle.std.specs.Prelude.{◌≡◌, map};
ghost use Rattle.ham_steps.specs.Pattern.{matches};
ghost use Rattle.ham_steps.specs.Content.{without_rows};
ghost use Rattle.ham_content.specs.Kept.{content};
ghost use Rattle.ham_watch.specs.Watches.{AreSound};

use crate::changes::take_row;
use crate::watch::Watch;
use ham_content::search::find_match;
use ham_content::{FactKey, Sieve, Spot};
use ham_steps::constants;
use ham_syntax::Term;
use std::collections::{HashMap, HashSet};

/// Deletes the relation's rows that match the pattern, one found after the other.
fn take_matches(
    facts: &mut HashSet<FactKey>,
    amounts: &HashMap<Spot, i128>,
    watches: &mut [Watch],
    sieves: &mut [Sieve],
    room: u64,
    relation: u8,
    pattern: &[Term],
)
    requires sound { AreSound facts.old amounts.now watches.old sieves.old room }
    ensures content { content facts.new amounts.now ≡ without_rows (content facts.old amounts.now) relation (matches pattern.now) }
    ensures sound { AreSound facts.new amounts.now watches.new sieves.new room }
    ensures invariants { map (λ w. w.invariant) watches.new ≡ map (λ w. w.invariant) watches.old }
{
    let mut found = find_match(facts, amounts, sieves, relation, pattern);
    while let Some(row) = found {
        take_row(facts, amounts, watches, sieves, room, relation, row);
        found = find_match(facts, amounts, sieves, relation, pattern);
    }
}

/// Deletes the relation's rows that match the pattern. No memory is taken.
pub fn take_rows(
    facts: &mut HashSet<FactKey>,
    amounts: &HashMap<Spot, i128>,
    watches: &mut [Watch],
    sieves: &mut [Sieve],
    room: u64,
    relation: u8,
    pattern: &[Term],
)
    requires sound { AreSound facts.old amounts.now watches.old sieves.old room }
    ensures content { content facts.new amounts.now ≡ without_rows (content facts.old amounts.now) relation (matches pattern.now) }
    ensures sound { AreSound facts.new amounts.now watches.new sieves.new room }
    ensures invariants { map (λ w. w.invariant) watches.new ≡ map (λ w. w.invariant) watches.old }
{
    match constants(pattern) {
        Some(row) => take_row(facts, amounts, watches, sieves, room, relation, row),
        None => take_matches(facts, amounts, watches, sieves, room, relation, pattern),
    }
}
