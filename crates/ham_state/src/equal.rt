//! Whether two states have one content, in whatever order their tables are.

ghost use Rattle.std.specs.Prelude.{◌≡◌, ◌&&◌, pos, unwrap_or};
ghost use Rattle.std.specs.List.{list_all};
ghost use Rattle.std.specs.Ordering.{int_eq};
ghost use Rattle.std.specs.HashMap as hash;
ghost use Rattle.std.specs.HashSet as bag;
ghost use Rattle.ham_content.specs.Kept.{same_fact, same_spot};
ghost use Rattle.ham_state.specs.Equal as equal;

use ham_content::tables::amount_at;
use ham_content::{FactKey, Spot};
use std::collections::{HashMap, HashSet};

/// Whether each of the facts is one of the others.
fn are_among(facts: &HashSet<FactKey>, others: &HashSet<FactKey>) -> bool
    ensures { result ≡ list_all (bag.contains same_fact others.now) facts.now.keys }
{
    facts.iter().all(|fact| others.contains(fact))
}

/// Whether the others are at the number there.
fn is_at(others: &HashMap<Spot, i128>, spot: &Spot, number: i128) -> bool
    ensures { result ≡ int_eq (unwrap_or (hash.get same_spot others.now spot.now) (pos 0)) number }
{
    amount_at(others, spot.counter, spot.key) == number
}

/// Whether the others are at each of the amounts.
fn agree(amounts: &HashMap<Spot, i128>, others: &HashMap<Spot, i128>) -> bool
    ensures { result ≡ list_all (λ e. int_eq (unwrap_or (hash.get same_spot others.now e.0) (pos 0)) e.1) amounts.now.entries }
{
    amounts
        .iter()
        .all(|(spot, number)| is_at(others, spot, *number))
}

/// Whether the facts of the two are the same.
fn same_facts(facts: &HashSet<FactKey>, others: &HashSet<FactKey>) -> bool
    ensures { result ≡ equal.same_facts facts.now others.now }
{
    are_among(facts, others) && are_among(others, facts)
}

/// Whether the two are at the same number everywhere.
fn same_amounts(amounts: &HashMap<Spot, i128>, others: &HashMap<Spot, i128>) -> bool
    ensures { result ≡ equal.same_amounts amounts.now others.now }
{
    agree(amounts, others) && agree(others, amounts)
}

/// Whether the facts of the two are the same, and the amounts.
pub fn is_one_content(
    facts: &HashSet<FactKey>,
    amounts: &HashMap<Spot, i128>,
    other_facts: &HashSet<FactKey>,
    other_amounts: &HashMap<Spot, i128>,
) -> bool
    ensures { result ≡ (equal.same_facts facts.now other_facts.now && equal.same_amounts amounts.now other_amounts.now) }
{
    same_facts(facts, other_facts) && same_amounts(amounts, other_amounts)
}
