//! What steps do to one row.

ghost use Rattle.std.specs.Prelude.{◌≡◌, cond, Some};
ghost use Rattle.ham_steps.specs.Pattern as patterns;
ghost use Rattle.ham_steps.specs.Touch as touch;

use crate::pattern::row_matches;
use crate::step::Step;

/// Whether the two are one row.
fn same_row(row: &[u64], other: &[u64]) -> bool
    ensures { result ≡ patterns.is_row row.now other.now }
{
    row == other
}

/// Whether the step inserts the row into the relation, or deletes by a pattern that matches it.
fn touches(step: &Step, relation: u8, row: &[u64]) -> bool
    ensures { result ≡ touch.touches step.now relation row.now }
{
    match step {
        Step::Insert {
            relation: into,
            row: inserted,
        } => *into == relation && same_row(inserted.items(), row),
        Step::Delete {
            relation: from,
            pattern,
        } => *from == relation && row_matches(pattern.items(), row),
        Step::Change { .. } => false,
    }
}

fn puts(step: &Step) -> bool
    ensures { result ≡ touch.puts step.now }
{
    matches!(step, Step::Insert { .. })
}

/// What the step does with the row, or else what an earlier one did.
fn touched(step: &Step, relation: u8, row: &[u64], earlier: Option<bool>) -> Option<bool>
    ensures { result ≡ (cond (touch.touches step.now relation row.now) (Some (touch.puts step.now)) earlier) }
{
    if touches(step, relation, row) {
        Some(puts(step))
    } else {
        earlier
    }
}

/// What the last of the steps that touch the row does with it: whether it inserts it into the relation, or deletes it.
/// None where no step touches it.
pub fn last_touch(steps: &[Step], relation: u8, row: &[u64]) -> Option<bool>
    ensures { result ≡ touch.last_touch steps.now relation row.now }
{
    let mut last = None;
    for step in steps {
        last = touched(step, relation, row, last);
    }
    last
}
