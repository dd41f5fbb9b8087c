//! Answers to lines of schedules, and their texts: one line each, or of rows one line more for each row, without the last
//! line's end.

ghost use Rattle.std.specs.Prelude.{◌≡◌, ◌++◌, IfOk, OnOk};
ghost use Rattle.ham_lines.specs.Texts as texts;

use crate::writers::{
    push_asked, push_compared, push_delivered, push_hexadecimal, push_issued, push_log, push_rows,
};
use ham_lists::{Bytes, Items, NoMemory};
use ham_resend::Asked;
use ham_state::Row;
use ham_syntax::Places;
use ham_text::{push_number, push_signed};
use ham_turns::{Delivered, Issued};
use std::alloc::Global;

/// What a line of a schedule is answered.
#[derive(Debug, Drop)]
pub enum Answer {
    /// The world was made, with so many replicas.
    Replicas(u8),
    /// An issue was answered, and its turn logged these calls.
    Issued { answer: Issued, logged: Places },
    /// A frame was delivered, and its turn logged these calls.
    Delivered { answer: Delivered, logged: Places },
    /// A front of a frame came, and its link broke.
    Torn,
    /// How many frames were sent: on a link so far, or by a tick.
    Sent(u64),
    /// The value of a counter.
    Value(i128),
    /// The rows of a relation.
    Rows(Items<Row>),
    /// The calls of a log.
    Log(Places),
    /// What is known of a request.
    Asked(Asked),
    /// The bytes of a frame.
    Frame(Bytes),
    /// Whether two replicas logged the same calls, and whether their states are equal.
    Compared { same: bool, equal: bool },
    /// After the last line.
    End,
}

/// The text of an answer.
pub fn text(alloc: Global, answer: &Answer) -> Result<Bytes, NoMemory>
    ensures { IfOk result (λ bytes. bytes ≡ texts.answer_text answer.now) }
{
    let mut text = Items::new(alloc);
    push_answer(&mut text, answer)?;
    Ok(text)
}

/// Puts the text of an answer last. Where memory runs out nothing is said of what the text then is.
pub fn push_answer(text: &mut Bytes, answer: &Answer) -> Result<(), NoMemory>
    ensures { OnOk result (text.new ≡ text.old ++ texts.answer_text answer.now) }
{
    match answer {
        Answer::Replicas(count) => {
            text.extend(b"replicas")?;
            push_number(text, u64::from(*count))
        }
        Answer::Issued { answer, logged } => push_issued(text, *answer, logged.items()),
        Answer::Delivered { answer, logged } => push_delivered(text, *answer, logged.items()),
        Answer::Torn => text.extend(b"torn"),
        Answer::Sent(count) => {
            text.extend(b"sent")?;
            push_number(text, *count)
        }
        Answer::Value(value) => {
            text.extend(b"value ")?;
            push_signed(text, *value)
        }
        Answer::Rows(rows) => push_rows(text, rows.items()),
        Answer::Log(places) => push_log(text, places.items()),
        Answer::Asked(asked) => push_asked(text, *asked),
        Answer::Frame(bytes) => push_hexadecimal(text, bytes.items()),
        Answer::Compared { same, equal } => push_compared(text, *same, *equal),
        Answer::End => text.extend(b"end"),
    }
}
