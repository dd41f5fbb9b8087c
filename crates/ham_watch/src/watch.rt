//! What is kept beside the content for one invariant: tallies of rows at keys, and the broken spots.

ghost use Rattle.std.specs.Prelude.{◌≡◌, ℕ, ◌+◌, ◌*◌, ◌^◌, ◌<◌, ◌≤◌, List, ◌&&◌, not, true, false, nat_lt, nat_eq, cond, if◌then◌else◌, IsTrue, slice_get};
ghost use Rattle.std.specs.HashMap as hash;
ghost use Rattle.std.specs.HashSet as bag;
ghost use Rattle.ham_content.specs.Numbers.{same};
ghost use Rattle.ham_content.specs.Tallies.{count};

use ham_content::tally::{count_at, lower, raise};
use ham_steps::Row;
use ham_syntax::Invariant;
use std::collections::{HashMap, HashSet};

/// An invariant, with how many rows stand at each key that it counts, and its broken spots.
#[derive(Drop)]
pub struct Watch {
    pub invariant: Invariant,
    pub tallies: HashMap<Row, u64>,
    pub broken: HashSet<Row>,
}

/// Adds one at the key where it counts, and gives the number then.
pub fn raise_if(tallies: &mut HashMap<Row, u64>, when: bool, key: Row) -> u64
    requires room { 0 < hash.spare tallies.old }
    requires fits { count tallies.old key < 2 ^ 63 }
    ensures now { result ≡ count tallies.new key }
    ensures counts { (q : List ℕ) → count tallies.new q ≡ count tallies.old q + (if when && same key q then 1 else 0) }
    ensures spare { hash.spare tallies.old ≤ hash.spare tallies.new + 1 }
    ensures len { hash.hash_map_len tallies.new ≤ hash.hash_map_len tallies.old + 1 }
{
    if when {
        raise(tallies, key)
    } else {
        count_at(tallies, &key)
    }
}

/// Takes one away at the key where it counts, and gives the number then.
pub fn lower_if(tallies: &mut HashMap<Row, u64>, when: bool, key: Row) -> u64
    requires some { when ≡ true → 0 < count tallies.old key }
    ensures now { result ≡ count tallies.new key }
    ensures counts { (q : List ℕ) → count tallies.new q + (if when && same key q then 1 else 0) ≡ count tallies.old q }
    ensures spare { hash.spare tallies.old ≤ hash.spare tallies.new }
    ensures len { hash.hash_map_len tallies.new + (if when && nat_eq (count tallies.new key) 0 then 1 else 0) ≤ hash.hash_map_len tallies.old }
{
    if when {
        lower(tallies, key)
    } else {
        count_at(tallies, &key)
    }
}

/// Says of a key whether it is broken. There is room where it comes to be.
fn set_mark(broken: &mut HashSet<Row>, key: Row, marked: bool)
    requires room { IsTrue (marked && not (bag.contains same broken.old key)) → 0 < bag.spare broken.old }
    ensures marks { (q : List ℕ) → bag.contains same broken.new q ≡ cond (same key q) marked (bag.contains same broken.old q) }
    ensures room { bag.hash_set_len broken.old + bag.spare broken.old ≤ bag.hash_set_len broken.new + bag.spare broken.new + (if bag.contains same broken.old key && not marked then 1 else 0) }
    ensures spare { bag.spare broken.old ≤ bag.spare broken.new + (if marked && not (bag.contains same broken.old key) then 1 else 0) }
{
    if !marked {
        broken.remove(&key);
    } else if !broken.contains(&key) {
        // There is room, so this can't fail.
        let _ = broken.insert(key);
    }
}

/// Says of a key that is asked for whether it is broken. There is room where it comes to be.
pub fn mark_if(broken: &mut HashSet<Row>, when: bool, key: Row, marked: bool)
    requires room { IsTrue (when && (marked && not (bag.contains same broken.old key))) → 0 < bag.spare broken.old }
    ensures marks { (q : List ℕ) → bag.contains same broken.new q ≡ cond (when && same key q) marked (bag.contains same broken.old q) }
    ensures room { bag.hash_set_len broken.old + bag.spare broken.old ≤ bag.hash_set_len broken.new + bag.spare broken.new + (if when && (bag.contains same broken.old key && not marked) then 1 else 0) }
    ensures spare { bag.spare broken.old ≤ bag.spare broken.new + (if when && (marked && not (bag.contains same broken.old key)) then 1 else 0) }
{
    if when {
        set_mark(broken, key, marked);
    }
}
