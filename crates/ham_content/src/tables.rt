//! The content of a state: facts in a set, amounts in a map.

ghost use Rattle.std.specs.Prelude.{◌≡◌, ℕ, ◌+◌, ◌-◌, ◌^◌, ◌<◌, ◌≤◌, ◌+ℤ◌, unwrap_or, pos, cond, if◌then◌else◌};
ghost use Rattle.std.specs.HashMap as hash;
ghost use Rattle.std.specs.HashSet as bag;
ghost use Rattle.ham_steps.specs.Pattern.{is_row};
ghost use Rattle.ham_steps.specs.Content as contents;
ghost use Rattle.ham_steps.specs.Content.{with_row, without_rows, with_change};
ghost use Rattle.ham_content.specs.declared.tables.Spot.{Spot};
ghost use Rattle.ham_content.specs.Kept.{content, fact, spot, same_fact, same_spot};

use ham_steps::Row;
use std::collections::{HashMap, HashSet};

/// A row in a relation.
#[derive(Clone, Copy, PartialEq, Eq, Hash, Debug)]
pub struct FactKey {
    pub relation: u8,
    pub row: Row,
}

/// A counter's key.
#[derive(Clone, Copy, PartialEq, Eq, Hash, Debug)]
pub struct Spot {
    pub counter: u8,
    pub key: u64,
}

/// Whether the row is in the relation.
pub fn has(facts: &HashSet<FactKey>, relation: u8, row: Row) -> bool
    ensures { result ≡ bag.contains same_fact facts.now (fact relation row) }
{
    facts.contains(&FactKey { relation, row })
}

pub fn amount_at(amounts: &HashMap<Spot, i128>, counter: u8, key: u64) -> i128
    ensures { result ≡ unwrap_or (hash.get same_spot amounts.now (spot counter key)) (pos 0) }
{
    match amounts.get(&Spot { counter, key }) {
        Some(number) => *number,
        None => 0,
    }
}

/// What the counter is at the key.
pub fn value(facts: &HashSet<FactKey>, amounts: &HashMap<Spot, i128>, counter: u8, key: u64) -> i128
    ensures { result ≡ contents.value (content facts.now amounts.now) counter key }
{
    let _facts = facts;
    amount_at(amounts, counter, key)
}

/// Whether the row is in the relation.
pub fn has_row(
    facts: &HashSet<FactKey>,
    amounts: &HashMap<Spot, i128>,
    relation: u8,
    row: Row,
) -> bool
    ensures { result ≡ contents.has (content facts.now amounts.now) relation row }
{
    has(facts, relation, row)
}

/// Puts in a row, for which there is room.
pub fn put(facts: &mut HashSet<FactKey>, amounts: &HashMap<Spot, i128>, relation: u8, row: Row)
    requires room { 0 < bag.spare facts.old }
    ensures content { content facts.new amounts.now ≡ with_row (content facts.old amounts.now) relation row }
    ensures room { bag.spare facts.old ≤ bag.spare facts.new + 1 }
{
    // There is room, so this can't fail.
    let _ = facts.insert(FactKey { relation, row });
}

/// Takes out a row.
pub fn take(facts: &mut HashSet<FactKey>, amounts: &HashMap<Spot, i128>, relation: u8, row: Row)
    ensures content { content facts.new amounts.now ≡ without_rows (content facts.old amounts.now) relation (is_row row) }
    ensures room { bag.spare facts.old ≤ bag.spare facts.new }
    ensures len { bag.hash_set_len facts.new + (if bag.contains same_fact facts.old (fact relation row) then 1 else 0) ≡ bag.hash_set_len facts.old }
{
    facts.remove(&FactKey { relation, row });
}

/// Writes the number at the counter's key; there is room. No amount of 0 is kept.
fn set_amount(amounts: &mut HashMap<Spot, i128>, counter: u8, key: u64, number: i128)
    requires room { 0 < hash.spare amounts.old }
    ensures amounts { (s : Spot) → unwrap_or (hash.get same_spot amounts.new s) (pos 0) ≡ cond (same_spot (spot counter key) s) number (unwrap_or (hash.get same_spot amounts.old s) (pos 0)) }
    ensures room { hash.spare amounts.old ≤ hash.spare amounts.new + 1 }
{
    if number == 0 {
        amounts.remove(&Spot { counter, key });
    } else {
        // There is room, so this can't fail.
        let _ = amounts.insert(Spot { counter, key }, number);
    }
}

/// Adds to the counter at the key, which comes to the number; there is room.
pub fn change(
    facts: &HashSet<FactKey>,
    amounts: &mut HashMap<Spot, i128>,
    counter: u8,
    key: u64,
    by: i128,
    number: i128,
)
    requires room { 0 < hash.spare amounts.old }
    requires number { number ≡ (contents.value (content facts.now amounts.old) counter key +ℤ by) }
    ensures content { content facts.now amounts.new ≡ with_change (content facts.now amounts.old) counter key by }
    ensures room { hash.spare amounts.old ≤ hash.spare amounts.new + 1 }
{
    let _facts = facts;
    let _by = by;
    set_amount(amounts, counter, key, number);
}
