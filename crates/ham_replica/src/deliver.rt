//! A delivery.

ghost use Rattle.std.specs.Prelude.{◌≡◌, ◌<◌, ◌≤◌, None, [], ◌∷◌, length, get_or, IfOk};
ghost use Rattle.ham_frame.specs.declared.frame.Frame.TheVariants as frames;
ghost use Rattle.ham_frame.specs.Spelling.{Fits, FitsCall};
ghost use Rattle.ham_turns.specs.declared.turn.Delivered.TheVariants as delivered;
ghost use Rattle.ham_turns.specs.Refusals.{deliver_refusal};
ghost use Rattle.ham_site.specs.Sites.{rules_at, setting_at};
ghost use Rattle.ham_replica.specs.Values.{words};
ghost use Rattle.ham_replica.specs.Kept.{IsKept, waits_of};
ghost use Rattle.ham_replica.specs.Shown.{lists_of};
ghost use Rattle.ham_replica.specs.Deliveries.{MayTake, TakesCall, MayDeliver, TakesFrame, DeliversIn, IsPlain, IsDelivered, Acks};

use crate::drain::drain;
use crate::held::{Held, Reply, Request};
use crate::refuse::{is_kept, test_call};
use crate::request::{deliver_request, plain};
use ham_buffer::{Put, Wait, Waits};
use ham_frame::Frame;
use ham_lane::AckBeyond;
use ham_lists::NoMemory;
use ham_resend::{Told, VerdictFault};
use ham_site::{Outs, Site, Turn, room_for_one, with_frame};
use ham_syntax::{Call, Items};
use ham_turns::{DeliverRefusal, Delivered};
use std::alloc::Global;

/// Takes in a frame.
pub(crate) fn deliver_in(
    site: &Site,
    held: &mut Held,
    from: u8,
    frame: &Frame,
) -> Result<Turn<Delivered>, DeliverRefusal>
    requires may { MayDeliver site.now (lists_of held.old) from }
    requires fits { Fits frame.now }
    ensures { DeliversIn site.now (lists_of held.old) (lists_of held.new) from frame.now result }
{
    match frame {
        Frame::Hello { .. } => Err(DeliverRefusal::HelloTwice),
        Frame::Call(call) => deliver_call(site, held, from, call),
        Frame::Ack { lane, count } => deliver_ack(site, held, from, *lane, *count),
        Frame::Request { group, number, act } => {
            let request = Request {
                from,
                group: *group,
                number: *number,
                act: *act,
            };
            deliver_request(site, held, &request)
        }
        Frame::Verdict {
            group,
            number,
            ruling,
        } => {
            let reply = Reply {
                from,
                group: *group,
                number: *number,
                ruling: *ruling,
            };
            deliver_verdict(site, held, &reply)
        }
        Frame::Bye => Ok(deliver_bye(site, held, from)),
    }
}

/// Takes in a Bye: it is noted.
fn deliver_bye(site: &Site, held: &Held, from: u8) -> Turn<Delivered>
    requires { MayDeliver site.now (lists_of held.now) from }
    ensures { IsDelivered site.now (lists_of held.now) (lists_of held.now) from frames.Bye result }
{
    let alloc = *held.log.allocator();
    plain(alloc, Delivered::Noted, Outs::none(alloc))
}

/// Takes in a call.
fn deliver_call(
    site: &Site,
    held: &mut Held,
    from: u8,
    call: &Call,
) -> Result<Turn<Delivered>, DeliverRefusal>
    requires may { MayDeliver site.now (lists_of held.old) from }
    requires fits { FitsCall call.now }
    ensures { DeliversIn site.now (lists_of held.old) (lists_of held.new) from (frames.Call call.now) result }
{
    match test_call(site, held, from, call) {
        Ok(()) => {}
        Err(why) => return Err(why),
    }
    match take_in(site, held, from, call) {
        Ok(turn) => Ok(turn),
        Err(_) => Err(DeliverRefusal::NoMemory),
    }
}

/// Takes in a call that the tests let pass.
fn take_in(site: &Site, held: &mut Held, from: u8, call: &Call) -> Result<Turn<Delivered>, NoMemory>
    requires may { MayDeliver site.now (lists_of held.old) from }
    requires fits { FitsCall call.now }
    requires accepted { deliver_refusal (rules_at site.now) (setting_at site.now) (words (lists_of held.old)) site.now.me from (frames.Call call.now) ≡ None }
    ensures { TakesFrame site.now (lists_of held.old) (lists_of held.new) from (frames.Call call.now) result }
{
    let known = is_kept(held, &call.place());
    if known {
        repeat_ack(held, from, call.lane)
    } else {
        deliver_fresh(site, held, from, call)
    }
}

/// Acknowledges the calls of a lane once more.
fn repeat_ack(held: &Held, from: u8, lane: u8) -> Result<Turn<Delivered>, NoMemory>
    requires { lane < length held.now.logged.items }
    ensures { IfOk result (λ t. IsPlain t delivered.Repeat (record { to = from; frame = frames.Ack lane (get_or held.now.logged.items lane 0) } ∷ [])) }
{
    let alloc = *held.log.allocator();
    let rest = room_for_one(alloc)?;
    let count = held.logged[lane as usize];
    let out = Outs::of_frames(with_frame(rest, from, Frame::Ack { lane, count }));
    Ok(plain(alloc, Delivered::Repeat, out))
}

/// What a call waits for.
fn waits_for(alloc: Global, slots: &[u16], deps: &[u32]) -> Result<Waits, NoMemory>
    requires { length slots.now ≡ length deps.now }
    ensures { IfOk result (λ waits. waits ≡ waits_of slots.now deps.now) }
{
    let mut waits = Items::new(alloc);
    for i in 0..deps.len() {
        waits.push(Wait {
            slot: slots[i],
            count: deps[i],
        })?;
    }
    Ok(waits)
}

/// Puts a copy of a call into the buffer.
fn take_call(site: &Site, held: &mut Held, call: &Call) -> Result<(), NoMemory>
    requires kept { IsKept site.now (lists_of held.old) }
    requires may { MayTake site.now (lists_of held.old) call.now }
    ensures { TakesCall site.now (lists_of held.old) (lists_of held.new) call.now result }
{
    let alloc = *held.log.allocator();
    let waits = waits_for(alloc, site.needs_of(call.act.method), call.deps.items())?;
    match held.buffer.put(call.copy()?, waits)? {
        Put::Fresh => Ok(()),
        Put::Repeat => Ok(()),
    }
}

/// Takes in a call that is new, and drains.
fn deliver_fresh(
    site: &Site,
    held: &mut Held,
    from: u8,
    call: &Call,
) -> Result<Turn<Delivered>, NoMemory>
    requires kept { IsKept site.now (lists_of held.old) }
    requires may { MayTake site.now (lists_of held.old) call.now }
    ensures { TakesFrame site.now (lists_of held.old) (lists_of held.new) from (frames.Call call.now) result }
{
    let alloc = *held.log.allocator();
    let rest = room_for_one(alloc)?;
    take_call(site, held, call)?;
    let mut places = Vec::new(alloc);
    let settled = drain(site, held, &mut places);
    let lane = call.lane;
    let count = held.logged[lane as usize];
    Ok(Turn {
        answer: Delivered::Fresh,
        logged: Items::from(places),
        out: Outs::of_frames(with_frame(rest, from, Frame::Ack { lane, count })),
        settled,
    })
}

/// Takes in an acknowledgement.
fn deliver_ack(
    site: &Site,
    held: &mut Held,
    from: u8,
    lane: u8,
    count: u32,
) -> Result<Turn<Delivered>, DeliverRefusal>
    requires { MayDeliver site.now (lists_of held.old) from }
    ensures { DeliversIn site.now (lists_of held.old) (lists_of held.new) from (frames.Ack lane count) result }
{
    let yours = site.is_decided_by(lane, site.me());
    if !yours {
        return Err(DeliverRefusal::NotYours);
    }
    let alloc = *held.log.allocator();
    match note_ack(held, from, lane, count) {
        Ok(()) => Ok(plain(alloc, Delivered::Noted, Outs::none(alloc))),
        Err(beyond) => Err(DeliverRefusal::AckBeyond { len: beyond.len }),
    }
}

/// Notes that a peer has the calls of a lane up to this number.
fn note_ack(held: &mut Held, from: u8, lane: u8, count: u32) -> Result<(), AckBeyond>
    requires lane { lane < length held.old.outs.items }
    requires from { from < length (get_or (lists_of held.old).acked lane []) }
    ensures { Acks (lists_of held.old) (lists_of held.new) lane from count result }
{
    let out = &mut held.outs[lane as usize];
    out.ack(from, count)
}

/// Takes in a verdict.
fn deliver_verdict(
    site: &Site,
    held: &mut Held,
    reply: &Reply,
) -> Result<Turn<Delivered>, DeliverRefusal>
    requires may { MayDeliver site.now (lists_of held.old) reply.now.from }
    requires some { 1 ≤ reply.now.number }
    ensures { DeliversIn site.now (lists_of held.old) (lists_of held.new) reply.now.from (frames.Verdict reply.now.group reply.now.number reply.now.ruling) result }
{
    let yours = site.is_led_by(reply.group, reply.from);
    if !yours {
        return Err(DeliverRefusal::NotYours);
    }
    let alloc = *held.log.allocator();
    let (group, number) = (reply.group, reply.number);
    match held.asks.on_verdict(group, number, &reply.ruling) {
        Ok(Told::First) => Ok(plain(alloc, Delivered::Noted, Outs::none(alloc))),
        Ok(Told::Again) => Ok(plain(alloc, Delivered::Repeat, Outs::none(alloc))),
        Err(VerdictFault::Unknown { len }) => Err(DeliverRefusal::UnknownRequest { len }),
        Err(VerdictFault::Differs { kept: ruling }) => Err(DeliverRefusal::Differs {
            kept: Frame::Verdict {
                group,
                number,
                ruling,
            },
        }),
    }
}
