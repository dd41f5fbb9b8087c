//! Numbers at keys: a key that has none stands at 0.

ghost use Rattle.std.specs.Prelude.{◌≡◌, ℕ, ◌+◌, ◌^◌, ◌<◌, ◌≤◌, List, if◌then◌else◌};
ghost use Rattle.std.specs.HashMap as hash;
ghost use Rattle.ham_content.specs.Numbers.{same};
ghost use Rattle.ham_content.specs.Tallies.{count};

use ham_steps::Row;
use std::collections::HashMap;

/// The number at the key.
pub fn count_at(tallies: &HashMap<Row, u64>, key: &Row) -> u64
    ensures { result ≡ count tallies.now key.now }
{
    match tallies.get(key) {
        Some(number) => *number,
        None => 0,
    }
}

/// Adds one at the key, for which there is room, and gives the number then.
pub fn raise(tallies: &mut HashMap<Row, u64>, key: Row) -> u64
    requires room { 0 < hash.spare tallies.old }
    requires fits { count tallies.old key < 2 ^ 63 }
    ensures now { result ≡ count tallies.old key + 1 }
    ensures counts { (q : List ℕ) → count tallies.new q ≡ (if same key q then count tallies.old key + 1 else count tallies.old q) }
    ensures spare { hash.spare tallies.old ≤ hash.spare tallies.new + 1 }
    ensures len { hash.hash_map_len tallies.new ≤ hash.hash_map_len tallies.old + 1 }
{
    let number = count_at(tallies, &key) + 1;
    // There is room, so this can't fail.
    let _ = tallies.insert(key, number);
    number
}

/// Takes one away at the key, and gives the number then. A key that comes to 0 is dropped.
pub fn lower(tallies: &mut HashMap<Row, u64>, key: Row) -> u64
    requires some { 0 < count tallies.old key }
    ensures now { result + 1 ≡ count tallies.old key }
    ensures counts { (q : List ℕ) → count tallies.new q + (if same key q then 1 else 0) ≡ count tallies.old q }
    ensures spare { hash.spare tallies.old ≤ hash.spare tallies.new }
    ensures len { hash.hash_map_len tallies.new ≤ hash.hash_map_len tallies.old }
    ensures dropped { result ≡ 0 → hash.hash_map_len tallies.new + 1 ≡ hash.hash_map_len tallies.old }
{
    let number = count_at(tallies, &key) - 1;
    if number == 0 {
        tallies.remove(&key);
    } else if let Some(kept) = tallies.get_mut(&key) {
        *kept = number;
    }
    number
}
