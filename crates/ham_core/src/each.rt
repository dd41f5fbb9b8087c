//! Inputs that are entered one after another.

ghost use Rattle.std.specs.Prelude.{◌≡◌, ◌≤◌, [], Some, length, vec_capacity};
ghost use Rattle.std.specs.List.{AllByRecursion};
ghost use Rattle.ham_turns.specs.Settings.{setting_of};
ghost use Rattle.ham_journal.specs.Replies.{MayEnter};
ghost use Rattle.ham_core.specs.Each.{EntersEach, standing, is_stop};

use crate::door::{Tally, count};
use crate::guarded::Guarded;
use crate::seats::{Home, Seat};
use ham_journal::{Input, Reply};
use std::collections::VecDeque;

/// Whether a reply says that the node stops, or was stopped.
fn is_stop_reply(reply: &Reply) -> bool
    ensures { result ≡ is_stop reply.now }
{
    match reply {
        Reply::Stopping => true,
        Reply::Stopped => true,
        Reply::Issued { .. } => false,
        Reply::NotIssued(_) => false,
        Reply::Delivered { .. } => false,
        Reply::NotDelivered(_) => false,
        Reply::Ticked { .. } => false,
        Reply::Collected(_) => false,
        Reply::Value(_) => false,
        Reply::Rows(_) => false,
        Reply::Asked(_) => false,
        Reply::Log(_) => false,
        Reply::Counts(_) => false,
        Reply::Recorded(_) => false,
        Reply::Full => false,
        Reply::NoMemory => false,
    }
}

/// Enters inputs in order, up to and with the first that is replied that the node stops or was stopped: whether one was. The
/// room for the replies was taken before, so nothing can fail between two of them.
pub fn enter_each<L: Home>(
    guarded: &mut Guarded<L>,
    seat: &mut Seat<L>,
    tally: &mut Tally,
    inputs: &mut VecDeque<Input>,
    replies: &mut Vec<Reply>,
) -> bool
    requires may { AllByRecursion (MayEnter (setting_of L.plan) L.me) inputs.old.items }
    requires empty { replies.old.items ≡ [] }
    requires room { length inputs.old.items ≤ vec_capacity replies.old }
    ensures told { EntersEach L.object L.plan L.me (standing (Some guarded.old.journal) seat.old.share.amount tally.old.stops tally.old.fulls tally.old.refusals)
        (standing (Some guarded.new.journal) seat.new.share.amount tally.new.stops tally.new.fulls tally.new.refusals) inputs.old.items inputs.new.items replies.new.items result }
    ensures number { seat.new.number ≡ seat.old.number }
{
    while let Some(input) = inputs.pop_front() {
        let reply = guarded.enter(seat, input);
        count(tally, &reply);
        let stops = is_stop_reply(&reply);
        replies.push_reserved(reply);
        if stops {
            return true;
        }
    }
    false
}
