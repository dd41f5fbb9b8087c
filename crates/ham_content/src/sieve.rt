//! Sieves: the rows of a relation by their ids at some columns.

ghost use Rattle.std.specs.Prelude.{◌≡◌, ℕ, ◌+◌, ◌^◌, ◌<◌, true, false, List, not, ◌&&◌, ◌||◌, if◌then◌else◌};
ghost use Rattle.ham_steps.specs.Pattern.{is_row};
ghost use Rattle.ham_steps.specs.Content.{has, opening, with_row, without_rows};
ghost use Rattle.ham_content.specs.Numbers.{same};
ghost use Rattle.ham_content.specs.Tallies.{count};
ghost use Rattle.ham_content.specs.Kept.{content};
ghost use Rattle.ham_content.specs.Counted.{at_columns};
ghost use Rattle.ham_content.specs.Seats.{AreListed, is_seated, HaveSeats, IsSieve, HasSeats};

use crate::columns::project;
use crate::seats::{Seat, number_of, row_at, sit, stand};
use crate::tables::{FactKey, Spot};
use crate::tally::{count_at, lower, raise};
use ham_steps::Row;
use ham_syntax::Cols;
use std::alloc::Global;
use std::collections::{HashMap, HashSet};

/// The rows of a relation by their ids at the columns: how many stand at each key, and which.
#[derive(Drop)]
pub struct Sieve {
    pub relation: u8,
    pub columns: Cols,
    pub tallies: HashMap<Row, u64>,
    pub seats: HashMap<Seat, Row>,
    pub numbers: HashMap<Row, u64>,
}

/// A sieve of the opening state.
pub fn empty_sieve(alloc: Global, relation: u8, columns: Cols) -> Sieve
    ensures sieve { IsSieve opening result }
    ensures room { HasSeats 0 result }
{
    Sieve {
        relation,
        columns,
        tallies: HashMap::new(alloc),
        seats: HashMap::new(alloc),
        numbers: HashMap::new(alloc),
    }
}

/// Puts a row in that isn't there, for which there is room.
fn seat_row(
    columns: &Cols,
    tallies: &mut HashMap<Row, u64>,
    seats: &mut HashMap<Seat, Row>,
    numbers: &mut HashMap<Row, u64>,
    row: Row,
)
    requires listed { AreListed columns.now tallies.old seats.old numbers.old }
    requires absent { is_seated numbers.old row ≡ false }
    requires fits { count tallies.old (at_columns columns.now row) < 2 ^ 63 }
    requires room { HaveSeats 1 tallies.old seats.old numbers.old }
    ensures listed { AreListed columns.now tallies.new seats.new numbers.new }
    ensures counts { (q : List ℕ) → count tallies.new q ≡ count tallies.old q + (if same (at_columns columns.now row) q then 1 else 0) }
    ensures rows { (x : List ℕ) → is_seated numbers.new x ≡ (same row x || is_seated numbers.old x) }
    ensures room { (n : ℕ) → HaveSeats (n + 1) tallies.old seats.old numbers.old → HaveSeats n tallies.new seats.new numbers.new }
{
    let key = project(columns, &row);
    let number = count_at(tallies, &key);
    sit(seats, numbers, key, number, row);
    raise(tallies, key);
}

/// Takes a row out that is there. No memory is taken.
fn unseat_row(
    columns: &Cols,
    tallies: &mut HashMap<Row, u64>,
    seats: &mut HashMap<Seat, Row>,
    numbers: &mut HashMap<Row, u64>,
    row: Row,
)
    requires listed { AreListed columns.now tallies.old seats.old numbers.old }
    requires there { is_seated numbers.old row ≡ true }
    ensures listed { AreListed columns.now tallies.new seats.new numbers.new }
    ensures counts { (q : List ℕ) → count tallies.new q + (if same (at_columns columns.now row) q then 1 else 0) ≡ count tallies.old q }
    ensures rows { (x : List ℕ) → is_seated numbers.new x ≡ (not (same row x) && is_seated numbers.old x) }
    ensures room { (n : ℕ) → HaveSeats n tallies.old seats.old numbers.old → HaveSeats n tallies.new seats.new numbers.new }
{
    let Some(number) = number_of(numbers, &row) else {
        return;
    };
    let key = project(columns, &row);
    let last = lower(tallies, key);
    if let Some(moved) = row_at(seats, key, last) {
        stand(seats, numbers, key, number, last, moved, row);
    }
}

/// A row that isn't there is about to come. There is room.
pub fn sit_row(
    facts: &HashSet<FactKey>,
    amounts: &HashMap<Spot, i128>,
    sieve: &mut Sieve,
    relation: u8,
    row: Row,
)
    requires sieve { IsSieve (content facts.now amounts.now) sieve.old }
    requires absent { has (content facts.now amounts.now) relation row ≡ false }
    requires room { HasSeats 1 sieve.old }
    ensures sieve { IsSieve (with_row (content facts.now amounts.now) relation row) sieve.new }
    ensures room { (n : ℕ) → HasSeats (n + 1) sieve.old → HasSeats n sieve.new }
{
    // So few that a number fits.
    let _few = facts.len();
    if sieve.relation == relation {
        let columns = sieve.columns;
        seat_row(
            &columns,
            &mut sieve.tallies,
            &mut sieve.seats,
            &mut sieve.numbers,
            row,
        );
    }
}

/// A row that is there is about to go.
pub fn stand_row(
    facts: &HashSet<FactKey>,
    amounts: &HashMap<Spot, i128>,
    sieve: &mut Sieve,
    relation: u8,
    row: Row,
)
    requires sieve { IsSieve (content facts.now amounts.now) sieve.old }
    requires there { has (content facts.now amounts.now) relation row ≡ true }
    ensures sieve { IsSieve (without_rows (content facts.now amounts.now) relation (is_row row)) sieve.new }
    ensures room { (n : ℕ) → HasSeats n sieve.old → HasSeats n sieve.new }
{
    if sieve.relation == relation {
        let columns = sieve.columns;
        unseat_row(
            &columns,
            &mut sieve.tallies,
            &mut sieve.seats,
            &mut sieve.numbers,
            row,
        );
    }
}
