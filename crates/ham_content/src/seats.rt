//! Seats: a list of rows for each key, in which each row knows its number.

ghost use Rattle.std.specs.Prelude.{◌≡◌, ℕ, ◌+◌, ◌<◌, ◌≤◌, List, cond, None, Some};
ghost use Rattle.std.specs.HashMap as hash;
ghost use Rattle.ham_content.specs.declared.seats.Seat.{Seat};
ghost use Rattle.ham_content.specs.Numbers.{same};
ghost use Rattle.ham_content.specs.Seats.{same_seat, seat};

use ham_steps::Row;
use std::collections::HashMap;

/// A place in the list of a key.
#[derive(Clone, Copy, PartialEq, Eq, Hash, Debug)]
pub struct Seat {
    pub key: Row,
    pub number: u64,
}

/// The row's number among those of its key.
pub fn number_of(numbers: &HashMap<Row, u64>, row: &Row) -> Option<u64>
    ensures { result ≡ hash.get same numbers.now row.now }
{
    numbers.get(row).copied()
}

/// The row at the seat.
pub fn row_at(seats: &HashMap<Seat, Row>, key: Row, number: u64) -> Option<Row>
    ensures { result ≡ hash.get same_seat seats.now (seat key number) }
{
    seats.get(&Seat { key, number }).copied()
}

/// Puts a row that isn't there last in its key's list, which has so many.
pub fn sit(
    seats: &mut HashMap<Seat, Row>,
    numbers: &mut HashMap<Row, u64>,
    key: Row,
    count: u64,
    row: Row,
)
    requires room { 0 < hash.spare seats.old }
    requires room_numbers { 0 < hash.spare numbers.old }
    ensures seats { (s : Seat) → hash.get same_seat seats.new s ≡ cond (same_seat (seat key count) s) (Some row) (hash.get same_seat seats.old s) }
    ensures numbers { (x : List ℕ) → hash.get same numbers.new x ≡ cond (same row x) (Some count) (hash.get same numbers.old x) }
    ensures spare { hash.spare seats.old ≤ hash.spare seats.new + 1 }
    ensures spare_numbers { hash.spare numbers.old ≤ hash.spare numbers.new + 1 }
{
    // There is room, so neither can fail.
    let _ = seats.insert(Seat { key, number: count }, row);
    let _ = numbers.insert(row, count);
}

/// Takes the row with this number out of its key's list: the last of the list moves to its seat. No memory is taken.
pub fn stand(
    seats: &mut HashMap<Seat, Row>,
    numbers: &mut HashMap<Row, u64>,
    key: Row,
    number: u64,
    last: u64,
    moved: Row,
    row: Row,
)
    requires number { hash.get same numbers.old row ≡ Some number }
    requires moved { hash.get same_seat seats.old (seat key last) ≡ Some moved }
    requires seated { hash.get same_seat seats.old (seat key number) ≡ Some row }
    requires last { hash.get same numbers.old moved ≡ Some last }
    ensures seats { (s : Seat) → hash.get same_seat seats.new s ≡ cond (same_seat (seat key last) s) None (cond (same_seat (seat key number) s) (Some moved) (hash.get same_seat seats.old s)) }
    ensures numbers { (x : List ℕ) → hash.get same numbers.new x ≡ cond (same row x) None (cond (same moved x) (Some number) (hash.get same numbers.old x)) }
    ensures spare { hash.spare seats.old ≤ hash.spare seats.new }
    ensures spare_numbers { hash.spare numbers.old ≤ hash.spare numbers.new }
{
    if let Some(place) = seats.get_mut(&Seat { key, number }) {
        *place = moved;
    }
    seats.remove(&Seat { key, number: last });
    if let Some(place) = numbers.get_mut(&moved) {
        *place = number;
    }
    numbers.remove(&row);
}
