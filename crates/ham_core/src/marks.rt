//! How the work of an input is told.

ghost use Rattle.std.specs.Prelude.{◌≡◌, ◌≤◌, ◌↔◌, ◌≢◌, IsTrue, length};
ghost use Rattle.ham_journal.specs.declared.input.Input.TheVariants as inputs;
ghost use Rattle.ham_journal.specs.Replies.{IsNothing};
ghost use Rattle.ham_core.specs.Marks.{mark_of, not_issued_mark, not_issued_reply, not_delivered_mark, not_delivered_reply};

use ham_journal::{Entry, Input, MAX_ENTRIES, Mark, Reply};
use ham_turns::{DeliverRefusal, IssueRefusal};

/// Whether something is ready after a turn.
pub(crate) fn mark(settled: bool) -> Mark
    ensures { result ≡ mark_of settled }
{
    if settled { Mark::Done } else { Mark::Unsettled }
}

pub(crate) fn not_issued(why: IssueRefusal) -> (Mark, Reply)
    ensures mark { result.0 ≡ not_issued_mark why }
    ensures reply { result.1 ≡ not_issued_reply why }
{
    match why {
        IssueRefusal::NoMemory => (Mark::NoMemory, Reply::NoMemory),
        IssueRefusal::UnknownMethod => (Mark::Done, Reply::NotIssued(why)),
        IssueRefusal::BadArgs => (Mark::Done, Reply::NotIssued(why)),
        IssueRefusal::LaneFull => (Mark::Done, Reply::NotIssued(why)),
        IssueRefusal::RequestsFull => (Mark::Done, Reply::NotIssued(why)),
    }
}

pub(crate) fn not_delivered(why: DeliverRefusal) -> (Mark, Reply)
    ensures mark { result.0 ≡ not_delivered_mark why }
    ensures reply { result.1 ≡ not_delivered_reply why }
{
    let refusal = match why {
        DeliverRefusal::NoMemory => return (Mark::NoMemory, Reply::NoMemory),
        DeliverRefusal::NotYours => DeliverRefusal::NotYours,
        DeliverRefusal::BadMethod => DeliverRefusal::BadMethod,
        DeliverRefusal::BadArgs => DeliverRefusal::BadArgs,
        DeliverRefusal::BadDeps => DeliverRefusal::BadDeps,
        DeliverRefusal::HelloTwice => DeliverRefusal::HelloTwice,
        DeliverRefusal::AckBeyond { len } => DeliverRefusal::AckBeyond { len },
        DeliverRefusal::Differs { kept } => DeliverRefusal::Differs { kept },
        DeliverRefusal::UnknownRequest { len } => DeliverRefusal::UnknownRequest { len },
    };
    (Mark::Done, Reply::NotDelivered(refusal))
}

fn is_stop(input: &Input) -> bool
    ensures { IsTrue result ↔ (input.now ≡ inputs.Stop) }
{
    match input {
        Input::Stop => true,
        Input::Issue(_) => false,
        Input::Deliver { .. } => false,
        Input::Tick => false,
        Input::Collect { .. } => false,
        Input::Show { .. } => false,
        Input::Rows { .. } => false,
        Input::Verdict { .. } => false,
        Input::Log => false,
        Input::Counts => false,
        Input::Record => false,
    }
}

/// Whether nothing was sent or collected.
fn is_nothing(reply: &Reply) -> bool
    ensures { IsTrue result ↔ IsNothing reply.now }
{
    match reply {
        Reply::Ticked { sent } => *sent == 0,
        Reply::Collected(frames) => frames.items().is_empty(),
        Reply::Issued { .. } => false,
        Reply::NotIssued(_) => false,
        Reply::Delivered { .. } => false,
        Reply::NotDelivered(_) => false,
        Reply::Value(_) => false,
        Reply::Rows(_) => false,
        Reply::Asked(_) => false,
        Reply::Log(_) => false,
        Reply::Counts(_) => false,
        Reply::Recorded(_) => false,
        Reply::Stopping => false,
        Reply::Stopped => false,
        Reply::Full => false,
        Reply::NoMemory => false,
    }
}

/// Whether a journal of so many entries takes the input no more.
pub(crate) fn is_full(len: usize, input: &Input) -> bool
    ensures { IsTrue result ↔ ((MAX_ENTRIES ≤ len) × (input.now ≢ inputs.Stop)) }
{
    len >= MAX_ENTRIES && !is_stop(input)
}

/// Whether an entry would be of nothing.
pub(crate) fn is_idle(entry: &Entry, reply: &Reply) -> bool
    ensures { IsTrue result ↔ ((entry.now.before ≡ 0) × IsNothing reply.now) }
{
    entry.before == 0 && is_nothing(reply)
}
