//! An issue.

ghost use Rattle.ham_turns.specs.Ready.{IsSettled};
ghost use Rattle.ham_site.specs.Sites.{setting_at};
ghost use Rattle.ham_replica.specs.Values.{words};
ghost use Rattle.ham_replica.specs.Kept.{IsKept};
ghost use Rattle.ham_replica.specs.Shown.{lists_of};
ghost use Rattle.ham_replica.specs.Issues.{IssuesIn, MayForward};

use crate::decide::{decide_here, is_full};
use crate::held::Held;
use ham_frame::Frame;
use ham_resend::AskFault;
use ham_site::{Outs, Site, Turn, room_for_one, with_frame};
use ham_syntax::{Act, Items};
use ham_turns::{IssueRefusal, Issued};

/// Takes an act.
pub(crate) fn issue_in(
    site: &Site,
    held: &mut Held,
    act: &Act,
) -> Result<Turn<Issued>, IssueRefusal>
    requires kept { IsKept site.now (lists_of held.old) }
    requires settled { IsSettled (setting_at site.now) (words (lists_of held.old)) }
    ensures { IssuesIn site.now (lists_of held.old) (lists_of held.new) act.now result }
{
    if act.method >= site.methods() {
        return Err(IssueRefusal::UnknownMethod);
    }
    if !site.args_fit(act) {
        return Err(IssueRefusal::BadArgs);
    }
    let lane = site.lane_of(act.method, site.me());
    if site.decider_of(lane) != site.me() {
        return forward(site, held, act, lane);
    }
    let full = is_full(held, lane);
    if full {
        return Err(IssueRefusal::LaneFull);
    }
    match decide_here(site, held, act, lane) {
        Ok(turn) => Ok(turn),
        Err(_) => Err(IssueRefusal::NoMemory),
    }
}

/// Makes a request for an act, to the leader of its group.
fn forward(site: &Site, held: &mut Held, act: &Act, group: u8) -> Result<Turn<Issued>, IssueRefusal>
    requires kept { IsKept site.now (lists_of held.old) }
    requires settled { IsSettled (setting_at site.now) (words (lists_of held.old)) }
    requires may { MayForward site.now act.now group }
    ensures { IssuesIn site.now (lists_of held.old) (lists_of held.new) act.now result }
{
    let alloc = *held.log.allocator();
    let to = site.decider_of(group);
    let rest = room_for_one(alloc)?;
    match held.asks.ask(group, act) {
        Ok(number) => {
            let act = *act;
            let frame = Frame::Request { group, number, act };
            Ok(Turn {
                answer: Issued::Forwarded { group, number },
                logged: Items::new(alloc),
                out: Outs::of_frames(with_frame(rest, to, frame)),
                settled: true,
            })
        }
        Err(AskFault::Full { .. }) => Err(IssueRefusal::RequestsFull),
        Err(AskFault::NoMemory) => Err(IssueRefusal::NoMemory),
    }
}
