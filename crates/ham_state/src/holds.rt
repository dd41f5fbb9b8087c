//! Whether an invariant holds after steps: of what is broken, and of what the steps may newly break.

ghost use Rattle.std.specs.Prelude.{◌≡◌, ◌&&◌, ◌||◌, ◌==◌, not};
ghost use Rattle.std.specs.List.{list_all};
ghost use Rattle.std.specs.HashSet as bag;
ghost use Rattle.std.proofs.Props.{props};
ghost use Rattle.ham_steps.specs.Pattern.{matches};
ghost use Rattle.ham_content.specs.Kept.{content, fact, same_fact};
ghost use Rattle.ham_watch.specs.Watches.{IsWatch};
ghost use Rattle.ham_state.specs.Ahead.{is_sound_after, insert_passes, delete_passes, change_passes, spots_pass};

use crate::ahead::Ahead;
use crate::limits::{is_high_sound, is_low_sound};
use crate::spot::{is_reference_sound, is_unique_sound};
use ham_content::columns::project;
use ham_content::search::{failing_at, key_in};
use ham_content::tables::has;
use ham_content::{FactKey, RowTest};
use ham_steps::{Row, Step, constants, row_matches};
use ham_syntax::{Cols, Invariant, Term};
use ham_watch::Watch;

/// A content with steps that are about to be taken, and the watch of one invariant of it.
#[derive(Clone, Copy)]
pub struct Look<'a> {
    pub ahead: Ahead<'a>,
    pub watch: &'a Watch,
    pub ghost watched: { IsWatch (content ahead.facts.now ahead.amounts.now) watch.now } by { Prim.hlevel props },
}

/// Passes a row that the pattern doesn't match, or that is sound after the steps as a spot.
#[derive(Clone, Copy)]
struct IsMissedOrSound<'a> {
    look: &'a Look<'a>,
    pattern: &'a [Term],
}

impl RowTest for IsMissedOrSound<'_> {
    ghost use Rattle.std.specs.Prelude.{◌||◌, not};
    ghost use Rattle.ham_steps.specs.Pattern.{matches};
    ghost use Rattle.ham_content.specs.Kept.{content};
    ghost use Rattle.ham_state.specs.Ahead.{is_sound_after};

    ghost can_pass = { λ t. Unit {0} };

    ghost test = { λ t x. not (matches t.pattern.now x) || is_sound_after (content t.look.now.ahead.facts.now t.look.now.ahead.amounts.now) t.look.now.watch.now.invariant t.look.now.ahead.steps.now x };

    fn passes(&self, row: &Row) -> bool {
        !row_matches(self.pattern, row.items()) || self.look.is_sound_after(row)
    }
}

impl Look<'_> {
    /// Whether the spot is sound after the steps.
    fn is_sound_after(&self, spot: &Row) -> bool
        ensures { result ≡ is_sound_after (content self.now.ahead.facts.now self.now.ahead.amounts.now) self.now.watch.now.invariant self.now.ahead.steps.now spot.now }
    {
        let tallies = &self.watch.tallies;
        match self.watch.invariant {
            Invariant::Reference { from, columns, to } => {
                is_reference_sound(&self.ahead, tallies, from, &columns, to, spot)
            }
            Invariant::Unique { relation, columns } => {
                is_unique_sound(&self.ahead, tallies, relation, &columns, spot)
            }
            Invariant::Low { counter, limit } => { is_low_sound(&self.ahead, counter, limit, spot) }
            Invariant::High { counter, limit } => {
                is_high_sound(&self.ahead, counter, limit, spot)
            }
        }
    }

    /// Whether each spot that is broken is sound after the steps.
    fn all_are_repaired(&self) -> bool
        ensures { result ≡ list_all (is_sound_after (content self.now.ahead.facts.now self.now.ahead.amounts.now) self.now.watch.now.invariant self.now.ahead.steps.now) self.now.watch.now.broken.keys }
    {
        self.watch
            .broken
            .iter()
            .all(|spot| self.is_sound_after(spot))
    }

    /// Whether the key of the row that the step inserts into the relation is sound after the steps.
    fn insert_passes(&self, relation: u8, columns: &Cols, step: &Step) -> bool
        ensures { result ≡ insert_passes (is_sound_after (content self.now.ahead.facts.now self.now.ahead.amounts.now) self.now.watch.now.invariant self.now.ahead.steps.now) relation columns.now step.now }
    {
        match step {
            Step::Insert {
                relation: into,
                row,
            } => {
                let spot = project(columns, row);
                *into != relation || self.is_sound_after(&spot)
            }
            Step::Delete { .. } => true,
            Step::Change { .. } => true,
        }
    }

    /// Whether the fact, if it is one of the relation that the pattern matches, is sound after the steps as a spot.
    fn fact_passes(&self, relation: u8, pattern: &[Term], fact: &FactKey) -> bool
        ensures { result ≡ (not ((fact.now.relation == relation) && matches pattern.now fact.now.row) || is_sound_after (content self.now.ahead.facts.now self.now.ahead.amounts.now) self.now.watch.now.invariant self.now.ahead.steps.now fact.now.row) }
    {
        let concerned = fact.relation == relation && row_matches(pattern, fact.row.items());
        !concerned || self.is_sound_after(&fact.row)
    }

    /// Of all facts.
    fn facts_pass(&self, relation: u8, pattern: &[Term]) -> bool
        ensures { result ≡ list_all (λ f. not ((f.relation == relation) && matches pattern.now f.row) || is_sound_after (content self.now.ahead.facts.now self.now.ahead.amounts.now) self.now.watch.now.invariant self.now.ahead.steps.now f.row) self.now.ahead.facts.now.keys }
    {
        self.ahead
            .facts
            .iter()
            .all(|fact| self.fact_passes(relation, pattern, fact))
    }

    /// Whether each fact of the relation that the pattern matches is sound after the steps as a spot. They are found in the
    /// first sieve whose columns the pattern says; where none fits, all facts are looked through.
    fn matched_pass(&self, relation: u8, pattern: &[Term]) -> bool
        ensures { result ≡ list_all (λ f. not ((f.relation == relation) && matches pattern.now f.row) || is_sound_after (content self.now.ahead.facts.now self.now.ahead.amounts.now) self.now.watch.now.invariant self.now.ahead.steps.now f.row) self.now.ahead.facts.now.keys }
    {
        for sieve in self.ahead.sieves {
            if sieve.relation == relation {
                if let Some(key) = key_in(&sieve.columns, pattern) {
                    let test = IsMissedOrSound {
                        look: self,
                        pattern,
                    };
                    return failing_at(
                        self.ahead.facts,
                        self.ahead.amounts,
                        sieve,
                        &key,
                        &test,
                    ).is_none();
                }
            }
        }
        self.facts_pass(relation, pattern)
    }

    /// Whether the row, if it is in the relation, is sound after the steps as a spot.
    fn row_passes(&self, relation: u8, row: &Row) -> bool
        ensures { result ≡ (not (bag.contains same_fact self.now.ahead.facts.now (fact relation row.now)) || is_sound_after (content self.now.ahead.facts.now self.now.ahead.amounts.now) self.now.watch.now.invariant self.now.ahead.steps.now row.now) }
    {
        !has(self.ahead.facts, relation, *row) || self.is_sound_after(row)
    }

    /// Whether each row of the relation that the pattern matches is sound after the steps as a spot. A row that the
    /// pattern spells out is looked up.
    fn matches_pass(&self, relation: u8, pattern: &[Term]) -> bool
        ensures { result ≡ list_all (λ f. not ((f.relation == relation) && matches pattern.now f.row) || is_sound_after (content self.now.ahead.facts.now self.now.ahead.amounts.now) self.now.watch.now.invariant self.now.ahead.steps.now f.row) self.now.ahead.facts.now.keys }
    {
        match constants(pattern) {
            Some(row) => self.row_passes(relation, &row),
            None => self.matched_pass(relation, pattern),
        }
    }

    /// Whether each row of the relation that the step deletes is sound after the steps as a spot.
    fn delete_passes(&self, relation: u8, step: &Step) -> bool
        ensures { result ≡ delete_passes (is_sound_after (content self.now.ahead.facts.now self.now.ahead.amounts.now) self.now.watch.now.invariant self.now.ahead.steps.now) relation self.now.ahead.facts.now.keys step.now }
    {
        match step {
            Step::Delete {
                relation: from,
                pattern,
            } => { *from != relation || self.matches_pass(relation, pattern.items()) }
            Step::Insert { .. } => true,
            Step::Change { .. } => true,
        }
    }

    /// Whether the key at which the step changes the counter is sound after the steps.
    fn change_passes(&self, counter: u8, step: &Step) -> bool
        ensures { result ≡ change_passes (is_sound_after (content self.now.ahead.facts.now self.now.ahead.amounts.now) self.now.watch.now.invariant self.now.ahead.steps.now) counter step.now }
    {
        match *step {
            Step::Change {
                counter: of,
                key,
                ..
            } => of != counter || self.is_sound_after(&Row::one(key)),
            Step::Insert { .. } => true,
            Step::Delete { .. } => true,
        }
    }

    /// Whether each spot that the step may newly break is sound after the steps.
    fn spots_pass(&self, step: &Step) -> bool
        ensures { result ≡ spots_pass (is_sound_after (content self.now.ahead.facts.now self.now.ahead.amounts.now) self.now.watch.now.invariant self.now.ahead.steps.now) self.now.watch.now.invariant self.now.ahead.facts.now.keys step.now }
    {
        match self.watch.invariant {
            Invariant::Reference { from, columns, to } => {
                self.insert_passes(from, &columns, step) && self.delete_passes(to, step)
            }
            Invariant::Unique { relation, columns } => {
                self.insert_passes(relation, &columns, step)
            }
            Invariant::Low { counter, .. } => { self.change_passes(counter, step) }
            Invariant::High { counter, .. } => { self.change_passes(counter, step) }
        }
    }

    /// Whether each spot that the steps may newly break is sound after them.
    fn none_breaks(&self) -> bool
        ensures { result ≡ list_all (spots_pass (is_sound_after (content self.now.ahead.facts.now self.now.ahead.amounts.now) self.now.watch.now.invariant self.now.ahead.steps.now) self.now.watch.now.invariant self.now.ahead.facts.now.keys) self.now.ahead.steps.now }
    {
        self.ahead.steps.iter().all(|step| self.spots_pass(step))
    }

    /// Whether each broken spot is sound after the steps, and each that they may newly break.
    pub fn is_sound(&self) -> bool
        ensures { result ≡ (list_all (is_sound_after (content self.now.ahead.facts.now self.now.ahead.amounts.now) self.now.watch.now.invariant self.now.ahead.steps.now) self.now.watch.now.broken.keys && list_all (spots_pass (is_sound_after (content self.now.ahead.facts.now self.now.ahead.amounts.now) self.now.watch.now.invariant self.now.ahead.steps.now) self.now.watch.now.invariant self.now.ahead.facts.now.keys) self.now.ahead.steps.now) }
    {
        self.all_are_repaired() && self.none_breaks()
    }
}
