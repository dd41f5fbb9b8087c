//! A relation's rows, listed in order.

ghost use Rattle.std.specs.Prelude.{◌≡◌, ◌==◌, map, filter, IfOk};
ghost use Rattle.ham_steps.specs.Content.{rows};
ghost use Rattle.ham_content.specs.Kept.{content};

use crate::tables::{FactKey, Spot};
use ham_steps::Row;
use std::alloc::{AllocError, Global};
use std::collections::{HashMap, HashSet};

/// The relation's rows, in whatever order the table has.
fn gathered(alloc: Global, facts: &HashSet<FactKey>, relation: u8) -> Result<Vec<Row>, AllocError>
    ensures { IfOk result (λ list. list.items ≡ map (λ f. f.row) (filter (λ f. relation == f.relation) facts.now.keys)) }
{
    facts
        .iter()
        .copied()
        .filter(|fact| relation == fact.relation)
        .map(|fact| fact.row)
        .collect(alloc)
}

/// The relation's rows, ascending.
pub fn rows_of(
    alloc: Global,
    facts: &HashSet<FactKey>,
    amounts: &HashMap<Spot, i128>,
    relation: u8,
) -> Result<Vec<Row>, AllocError>
    ensures { IfOk result (λ list. list.items ≡ rows (content facts.now amounts.now) relation) }
{
    let _amounts = amounts;
    let _facts = facts.len();
    let mut list = gathered(alloc, facts, relation)?;
    list.sort_unstable();
    Ok(list)
}
