//! What a client's line enters, and the texts of replies.

ghost use Rattle.std.specs.Prelude.{◌≡◌, ◌++◌, OnOk};
ghost use Rattle.std.specs.List.{flat_map};
ghost use Rattle.ham_serve.specs.Hearing.{replies_text};
ghost use Rattle.ham_serve.specs.Texts.{input_by, verdict_by, reply_text, refusal_text, counts_text, count_text, said_text, fault_text};

use crate::recorded::push_recorded;
use crate::serve::Said;
use ham_core::{Input, Reply};
use ham_lines::{Answer, ClientLine, LineFault, push_answer, push_issued, push_log, push_rows};
use ham_lists::{Bytes, NoMemory};
use ham_syntax::Object;
use ham_syntax::limits::{MAX_GROUPS, MAX_REQUESTS};
use ham_text::{push_line_end, push_number, push_signed};
use ham_turns::IssueRefusal;

/// What a line enters; none for a `quit`. A verdict is asked of group 0 and number 0 where its numbers are none that a request
/// may have: of that no request was made.
pub(crate) fn input_of(line: &ClientLine) -> Option<Input>
    ensures { result ≡ input_by line.now }
{
    match *line {
        ClientLine::Issue(act) => Some(Input::Issue(act)),
        ClientLine::Show { counter, key } => Some(Input::Show { counter, key }),
        ClientLine::Rows { relation } => Some(Input::Rows { relation }),
        ClientLine::Verdict { group, number } => Some(verdict(group, number)),
        ClientLine::Log => Some(Input::Log),
        ClientLine::Counts => Some(Input::Counts),
        ClientLine::Record => Some(Input::Record),
        ClientLine::Quit => None,
        ClientLine::Stop => Some(Input::Stop),
    }
}

fn verdict(group: u64, number: u64) -> Input
    ensures { result ≡ verdict_by group number }
{
    if group < MAX_GROUPS as u64 && number <= MAX_REQUESTS as u64 {
        Input::Verdict {
            group: group as u8,
            number: number as u32,
        }
    } else {
        Input::Verdict {
            group: 0,
            number: 0,
        }
    }
}

/// Puts what is said to a client last, with its line's end.
pub(crate) fn push_said(text: &mut Bytes, object: &Object, said: Said) -> Result<(), NoMemory>
    ensures { OnOk result (text.new ≡ text.old ++ said_text object.now said) }
{
    match said {
        Said::Fault(fault) => push_fault(text, fault)?,
        Said::Bye => text.extend(b"bye")?,
        Said::Reply(reply) => push_reply(text, object, &reply)?,
    }
    push_line_end(text)
}

/// Puts the lines of replies last, in order.
pub(crate) fn push_replies(
    text: &mut Bytes,
    object: &Object,
    replies: &[Reply],
) -> Result<(), NoMemory>
    ensures { OnOk result (text.new ≡ text.old ++ replies_text object.now replies.now) }
{
    for reply in replies {
        push_reply(text, object, reply)?;
        push_line_end(text)?;
    }
    Ok(())
}

fn push_fault(text: &mut Bytes, fault: LineFault) -> Result<(), NoMemory>
    ensures { OnOk result (text.new ≡ text.old ++ fault_text fault) }
{
    match fault {
        LineFault::NotALine => text.extend(b"refused: not a line"),
        LineFault::UnknownName => text.extend(b"refused: unknown name"),
        LineFault::BadKey => text.extend(b"refused: bad key"),
        LineFault::NoMemory => text.extend(b"no memory"),
    }
}

fn push_reply(text: &mut Bytes, object: &Object, reply: &Reply) -> Result<(), NoMemory>
    ensures { OnOk result (text.new ≡ text.old ++ reply_text object.now reply.now) }
{
    match reply {
        Reply::Issued { answer, logged } => push_issued(text, *answer, logged.items()),
        Reply::NotIssued(why) => push_refusal(text, *why),
        Reply::Value(value) => {
            text.extend(b"value ")?;
            push_signed(text, *value)
        }
        Reply::Rows(rows) => push_rows(text, rows.items()),
        Reply::Asked(asked) => push_answer(text, &Answer::Asked(*asked)),
        Reply::Log(places) => push_log(text, places.items()),
        Reply::Counts(counts) => push_counts(text, counts.items()),
        Reply::Recorded(calls) => push_recorded(text, object, calls.items()),
        Reply::Stopping => text.extend(b"stopping"),
        Reply::Stopped => text.extend(b"stopped"),
        Reply::Full => text.extend(b"full"),
        Reply::NoMemory => text.extend(b"no memory"),
        Reply::Delivered { .. } => text.extend(b"delivered"),
        Reply::NotDelivered(_) => text.extend(b"refused"),
        Reply::Ticked { .. } => text.extend(b"ticked"),
        Reply::Collected(_) => text.extend(b"collected"),
    }
}

fn push_refusal(text: &mut Bytes, why: IssueRefusal) -> Result<(), NoMemory>
    ensures { OnOk result (text.new ≡ text.old ++ refusal_text why) }
{
    match why {
        IssueRefusal::UnknownMethod => text.extend(b"refused: unknown name"),
        IssueRefusal::BadArgs => text.extend(b"refused: bad arguments"),
        IssueRefusal::LaneFull => text.extend(b"refused: lane full"),
        IssueRefusal::RequestsFull => text.extend(b"refused: requests full"),
        IssueRefusal::NoMemory => text.extend(b"no memory"),
    }
}

/// Puts the counts of the lanes last, each after a space.
fn push_counts(text: &mut Bytes, counts: &[u32]) -> Result<(), NoMemory>
    ensures { OnOk result (text.new ≡ text.old ++ counts_text counts.now) }
{
    text.extend(b"counts")?;
    push_each(text, counts)
}

fn push_each(text: &mut Bytes, counts: &[u32]) -> Result<(), NoMemory>
    ensures { OnOk result (text.new ≡ text.old ++ flat_map count_text counts.now) }
{
    for count in counts {
        push_number(text, u64::from(*count))?;
    }
    Ok(())
}
