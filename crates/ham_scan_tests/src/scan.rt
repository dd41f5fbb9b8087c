//! Whether invariants hold, found by looking at every row and every key.

use ham_meaning::Outcome;
use ham_state::{Row, State};
use ham_syntax::{Invariant, NoMemory, Object};
use std::alloc::Global;

/// Ids and keys are below this.
pub(crate) const IDS: u64 = 3;

/// The id of the row at a column; columns count from 1.
fn id(row: &Row, column: u8) -> Option<u64> {
    let place = usize::from(column).checked_sub(1)?;
    row.items().get(place).copied()
}

/// Whether the ids of the row at these columns are those of the target, in order.
fn refers(row: &Row, columns: &[u8], target: &Row) -> bool {
    columns
        .iter()
        .map(|column| id(row, *column))
        .eq(target.items().iter().map(|id| Some(*id)))
}

/// Whether two rows have the same ids at these columns.
fn agree(one: &Row, other: &Row, columns: &[u8]) -> bool {
    columns
        .iter()
        .all(|column| id(one, *column) == id(other, *column))
}

fn holds(alloc: Global, state: &State, invariant: &Invariant) -> Result<bool, NoMemory> {
    Ok(match *invariant {
        Invariant::Reference { from, columns, to } => {
            let targets = state.rows(alloc, to)?;
            state.rows(alloc, from)?.items().iter().all(|row| {
                targets
                    .items()
                    .iter()
                    .any(|target| refers(row, columns.items(), target))
            })
        }
        Invariant::Unique { relation, columns } => {
            let rows = state.rows(alloc, relation)?;
            rows.items().iter().all(|one| {
                rows.items().iter().all(|other| one == other || !agree(one, other, columns.items()))
            })
        }
        Invariant::Low { counter, limit } => {
            (0..IDS).all(|key| state.value(counter, key) >= i128::from(limit))
        }
        Invariant::High { counter, limit } => {
            (0..IDS).all(|key| state.value(counter, key) <= i128::from(limit))
        }
    })
}

/// Yes, or the first invariant that doesn't hold.
pub(crate) fn scan(alloc: Global, object: &Object, state: &State) -> Result<Outcome, NoMemory> {
    for (place, invariant) in object.invariants().iter().enumerate() {
        if !holds(alloc, state, invariant)? {
            return Ok(Outcome::Invariant(place as u8));
        }
    }
    Ok(Outcome::Yes)
}
