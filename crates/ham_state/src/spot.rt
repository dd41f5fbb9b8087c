//! One spot of a reference or of a uniqueness after steps.

ghost use Rattle.std.specs.Prelude.{◌≡◌, not, nat_lt};
ghost use Rattle.ham_syntax.specs.declared.object.Invariant.TheVariants as invariants;
ghost use Rattle.ham_steps.specs.Content as contents;
ghost use Rattle.ham_steps.specs.Steps.{after_steps};
ghost use Rattle.ham_content.specs.Tallies.{count};
ghost use Rattle.ham_content.specs.Kept.{content};
ghost use Rattle.ham_content.specs.Counted.{tally};
ghost use Rattle.ham_state.specs.Ahead.{is_sound_after};

use crate::after::tally_after;
use crate::ahead::{Ahead, is_there};
use crate::scan::{at_most_one_stands, none_stands};
use ham_steps::Row;
use ham_syntax::Cols;
use std::collections::HashMap;

/// Whether no row stands at the key after the steps.
fn is_empty_after(
    ahead: &Ahead,
    tallies: &HashMap<Row, u64>,
    relation: u8,
    columns: &Cols,
    key: &Row,
) -> bool
    requires tallied { count tallies.now key.now ≡ tally (content ahead.now.facts.now ahead.now.amounts.now) relation columns.now key.now }
    ensures { result ≡ not (nat_lt 0 (tally (after_steps ahead.now.steps.now (content ahead.now.facts.now ahead.now.amounts.now)) relation columns.now key.now)) }
{
    match tally_after(ahead, tallies, relation, columns, key) {
        Some(number) => number == 0,
        None => none_stands(ahead, relation, columns, key),
    }
}

/// Whether the spot of a reference is sound after the steps.
pub fn is_reference_sound(
    ahead: &Ahead,
    tallies: &HashMap<Row, u64>,
    from: u8,
    columns: &Cols,
    to: u8,
    spot: &Row,
) -> bool
    requires tallied { count tallies.now spot.now ≡ tally (content ahead.now.facts.now ahead.now.amounts.now) from columns.now spot.now }
    ensures { result ≡ is_sound_after (content ahead.now.facts.now ahead.now.amounts.now) (invariants.Reference from columns.now to) ahead.now.steps.now spot.now }
{
    is_there(ahead, to, spot) || is_empty_after(ahead, tallies, from, columns, spot)
}

/// Whether the spot of a uniqueness is sound after the steps.
pub fn is_unique_sound(
    ahead: &Ahead,
    tallies: &HashMap<Row, u64>,
    relation: u8,
    columns: &Cols,
    spot: &Row,
) -> bool
    requires tallied { count tallies.now spot.now ≡ tally (content ahead.now.facts.now ahead.now.amounts.now) relation columns.now spot.now }
    ensures { result ≡ is_sound_after (content ahead.now.facts.now ahead.now.amounts.now) (invariants.Unique relation columns.now) ahead.now.steps.now spot.now }
{
    match tally_after(ahead, tallies, relation, columns, spot) {
        Some(number) => number <= 1,
        None => at_most_one_stands(ahead, relation, columns, spot),
    }
}
