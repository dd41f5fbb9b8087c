//! All sieves of a state, before a row comes and before one goes, and their room.

ghost use Rattle.std.specs.Prelude.{◌≡◌, ℕ, ◌+◌, ◌≤◌, true, false, OnOk};
ghost use Rattle.std.specs.HashMap as hash;
ghost use Rattle.ham_steps.specs.Pattern.{is_row};
ghost use Rattle.ham_steps.specs.Content.{State, has, with_row, without_rows};
ghost use Rattle.ham_content.specs.Kept.{content};
ghost use Rattle.ham_content.specs.Seats.{IsSieve, HasSeats, AreSieves, AllHaveSeats};

use crate::sieve::{Sieve, sit_row, stand_row};
use crate::tables::{FactKey, Spot};
use ham_steps::Row;
use std::alloc::AllocError;
use std::collections::{HashMap, HashSet};

/// A row that isn't there is about to come. Each sieve has room.
pub fn sit_all(
    facts: &HashSet<FactKey>,
    amounts: &HashMap<Spot, i128>,
    sieves: &mut [Sieve],
    relation: u8,
    row: Row,
)
    requires sieves { AreSieves (content facts.now amounts.now) sieves.old }
    requires absent { has (content facts.now amounts.now) relation row ≡ false }
    requires room { AllHaveSeats 1 sieves.old }
    ensures sieves { AreSieves (with_row (content facts.now amounts.now) relation row) sieves.new }
    ensures room { (n : ℕ) → AllHaveSeats (n + 1) sieves.old → AllHaveSeats n sieves.new }
{
    for sieve in sieves.iter_mut() {
        sit_row(facts, amounts, sieve, relation, row);
    }
}

/// A row that is there is about to go.
pub fn stand_all(
    facts: &HashSet<FactKey>,
    amounts: &HashMap<Spot, i128>,
    sieves: &mut [Sieve],
    relation: u8,
    row: Row,
)
    requires sieves { AreSieves (content facts.now amounts.now) sieves.old }
    requires there { has (content facts.now amounts.now) relation row ≡ true }
    ensures sieves { AreSieves (without_rows (content facts.now amounts.now) relation (is_row row)) sieves.new }
    ensures room { (n : ℕ) → AllHaveSeats n sieves.old → AllHaveSeats n sieves.new }
{
    for sieve in sieves.iter_mut() {
        stand_row(facts, amounts, sieve, relation, row);
    }
}

/// Makes room in a sieve for so many rows. What it has stays, whatever the answer.
fn prepare_sieve(sieve: &mut Sieve, rows: usize) -> Result<(), AllocError>
    ensures sieve { (s : State) → IsSieve s sieve.old → IsSieve s sieve.new }
    ensures kept { (n : ℕ) → HasSeats n sieve.old → HasSeats n sieve.new }
    ensures room { OnOk result (HasSeats rows sieve.new) }
{
    sieve.tallies.reserve(rows)?;
    sieve.seats.reserve(rows)?;
    sieve.numbers.reserve(rows)
}

/// Makes room in all sieves, and says whether there was memory.
pub fn prepare_sieves(sieves: &mut [Sieve], rows: usize) -> Result<(), AllocError>
    ensures sieves { (s : State) → AreSieves s sieves.old → AreSieves s sieves.new }
    ensures kept { (n : ℕ) → AllHaveSeats n sieves.old → AllHaveSeats n sieves.new }
    ensures room { OnOk result (AllHaveSeats rows sieves.new) }
{
    for sieve in sieves.iter_mut() {
        prepare_sieve(sieve, rows)?;
    }
    Ok(())
}
