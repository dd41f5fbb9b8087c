//! Writers of answers' texts. Each puts its text last; where memory runs out nothing is said of what the text then is.

ghost use Rattle.std.specs.Prelude.{◌≡◌, ◌<◌, ◌++◌, OnOk};
ghost use Rattle.std.specs.Fmt.{decimal};
ghost use Rattle.std.specs.List.{flat_map};
ghost use Rattle.ham_lines.specs.Texts as texts;

use ham_lists::{Bytes, NoMemory};
use ham_meaning::Outcome;
use ham_resend::{Asked, Refused};
use ham_state::Row;
use ham_syntax::Place;
use ham_text::{push_digits, push_joined, push_line_end, push_number};
use ham_turns::{Delivered, Issued};

/// Puts the answer to an issue last, with the calls that its turn logged.
pub fn push_issued(text: &mut Bytes, answer: Issued, logged: &[Place]) -> Result<(), NoMemory>
    ensures { OnOk result (text.new ≡ text.old ++ texts.issued_text answer logged.now) }
{
    match answer {
        Issued::Applied { .. } => {
            text.extend(b"applied")?;
            push_places(text, b" +", logged)
        }
        Issued::Forwarded { group, number } => {
            text.extend(b"forwarded")?;
            push_pair(text, b" ", u64::from(group), u64::from(number))
        }
        Issued::Impermissible(outcome) => push_impermissible(text, outcome),
    }
}

fn push_impermissible(text: &mut Bytes, outcome: Outcome) -> Result<(), NoMemory>
    ensures { OnOk result (text.new ≡ text.old ++ texts.impermissible_text outcome) }
{
    match outcome {
        Outcome::Yes => text.extend(b"impermissible"),
        Outcome::Guard(guard) => push_worded(text, b"impermissible guard ", guard),
        Outcome::Invariant(invariant) => push_worded(text, b"impermissible invariant ", invariant),
    }
}

/// Puts the answer to a delivered frame last, with the calls that its turn logged.
pub fn push_delivered(text: &mut Bytes, answer: Delivered, logged: &[Place]) -> Result<(), NoMemory>
    ensures { OnOk result (text.new ≡ text.old ++ texts.delivered_text answer logged.now) }
{
    match answer {
        Delivered::Fresh => {
            text.extend(b"fresh")?;
            push_places(text, b" +", logged)
        }
        Delivered::Repeat => text.extend(b"repeat"),
        Delivered::Noted => text.extend(b"noted"),
        Delivered::Early => text.extend(b"early"),
    }
}

/// Puts the places of calls last, each after a mark.
pub(crate) fn push_places(text: &mut Bytes, mark: &[u8], places: &[Place]) -> Result<(), NoMemory>
    ensures { OnOk result (text.new ≡ text.old ++ flat_map (texts.place_text mark.now) places.now) }
{
    for place in places {
        push_pair(text, mark, u64::from(place.lane), u64::from(place.number))?;
    }
    Ok(())
}

/// Puts a mark and two numbers last, with a colon between these.
fn push_pair(text: &mut Bytes, mark: &[u8], first: u64, second: u64) -> Result<(), NoMemory>
    ensures { OnOk result (text.new ≡ text.old ++ texts.pair_text mark.now first second) }
{
    text.extend(mark)?;
    push_digits(text, first)?;
    text.push(b':')?;
    push_digits(text, second)
}

/// Puts the rows of a relation last.
pub fn push_rows(text: &mut Bytes, rows: &[Row]) -> Result<(), NoMemory>
    ensures { OnOk result (text.new ≡ text.old ++ texts.rows_text rows.now) }
{
    text.extend(b"rows ")?;
    push_digits(text, rows.len() as u64)?;
    for row in rows {
        push_row(text, row.items())?;
    }
    Ok(())
}

/// Puts a log last.
pub fn push_log(text: &mut Bytes, places: &[Place]) -> Result<(), NoMemory>
    ensures { OnOk result (text.new ≡ text.old ++ texts.log_text places.now) }
{
    text.extend(b"log")?;
    push_places(text, b" ", places)
}

/// Puts the ids of a row last, on a line of their own.
fn push_row(text: &mut Bytes, ids: &[u64]) -> Result<(), NoMemory>
    ensures { OnOk result (text.new ≡ text.old ++ texts.row_line ids.now) }
{
    push_line_end(text)?;
    push_joined(text, ids)
}

pub(crate) fn push_asked(text: &mut Bytes, asked: Asked) -> Result<(), NoMemory>
    ensures { OnOk result (text.new ≡ text.old ++ texts.asked_text asked) }
{
    match asked {
        Asked::Unknown => text.extend(b"unknown"),
        Asked::Pending => text.extend(b"pending"),
        Asked::Applied(number) => {
            text.extend(b"applied")?;
            push_number(text, u64::from(number))
        }
        Asked::Refused(refused) => push_refused(text, refused),
    }
}

fn push_refused(text: &mut Bytes, refused: Refused) -> Result<(), NoMemory>
    ensures { OnOk result (text.new ≡ text.old ++ texts.refused_text refused) }
{
    match refused {
        Refused::Guard(guard) => push_worded(text, b"refused guard ", guard),
        Refused::Invariant(invariant) => push_worded(text, b"refused invariant ", invariant),
        Refused::Full => text.extend(b"refused full"),
    }
}

/// Puts words and a number last.
fn push_worded(text: &mut Bytes, words: &[u8], number: u8) -> Result<(), NoMemory>
    ensures { OnOk result (text.new ≡ text.old ++ (words.now ++ decimal number)) }
{
    text.extend(words)?;
    push_digits(text, u64::from(number))
}

pub(crate) fn push_compared(text: &mut Bytes, same: bool, equal: bool) -> Result<(), NoMemory>
    ensures { OnOk result (text.new ≡ text.old ++ texts.compared_text same equal) }
{
    match (same, equal) {
        (true, true) => text.extend(b"same equal"),
        (true, false) => text.extend(b"same unequal"),
        (false, true) => text.extend(b"differ equal"),
        (false, false) => text.extend(b"differ unequal"),
    }
}

/// Puts bytes last in lower-case hexadecimal digits.
pub fn push_hexadecimal(text: &mut Bytes, bytes: &[u8]) -> Result<(), NoMemory>
    ensures { OnOk result (text.new ≡ text.old ++ texts.hexadecimal bytes.now) }
{
    for byte in bytes {
        text.push(hexadecimal_digit(*byte / 16))?;
        text.push(hexadecimal_digit(*byte % 16))?;
    }
    Ok(())
}

fn hexadecimal_digit(digit: u8) -> u8
    requires { digit < 16 }
    ensures { result ≡ texts.hexadecimal_digit digit }
{
    if digit < 10 {
        b'0' + digit
    } else {
        b'a' + (digit - 10)
    }
}
