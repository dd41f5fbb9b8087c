//! A request that comes to the replica that leads its group.

ghost use Rattle.std.specs.Prelude.{◌≡◌, ◌<◌, ◌≤◌, None, [], ◌∷◌, length, get_or, OnOk, IfOk, vec_len, vec_capacity};
ghost use Rattle.std.specs.Option.{option_copied};
ghost use Rattle.ham_meaning.specs.declared.outcome.Outcome.TheVariants as outcomes;
ghost use Rattle.ham_frame.specs.declared.frame.Frame.TheVariants as frames;
ghost use Rattle.ham_frame.specs.Spelling.{FitsAct};
ghost use Rattle.ham_resend.specs.Giving as giving;
ghost use Rattle.ham_turns.specs.declared.turn.Delivered.TheVariants as delivered;
ghost use Rattle.ham_turns.specs.Words.{numbered};
ghost use Rattle.ham_turns.specs.Sends.{back, kept_ruling};
ghost use Rattle.ham_turns.specs.Refusals.{deliver_refusal};
ghost use Rattle.ham_site.specs.Sites.{rules_at, setting_at, AreSteps};
ghost use Rattle.ham_replica.specs.Values.{words};
ghost use Rattle.ham_replica.specs.Shown.{lists_of};
ghost use Rattle.ham_replica.specs.Steps.{ruled_more};
ghost use Rattle.ham_replica.specs.Deliveries.{MayDeliver, MayRule, TakesFrame, IsPlain, DeliversIn};

use crate::decide::{is_full, log_decided, make_out_room, new_call};
use crate::drain::drain;
use crate::held::{Held, Request};
use crate::refuse::test_request;
use ham_frame::{Frame, Ruling};
use ham_lists::NoMemory;
use ham_meaning::Outcome;
use ham_site::{Outs, Site, Turn, room_for_one, with_frame};
use ham_state::Net;
use ham_syntax::Items;
use ham_syntax::limits::{MAX_LANE_CALLS, MAX_REQUESTS};
use ham_turns::{DeliverRefusal, Delivered, Out};
use std::alloc::Global;

/// A turn that logs nothing.
pub(crate) fn plain(alloc: Global, answer: Delivered, out: Outs) -> Turn<Delivered>
    ensures { IsPlain result answer out }
{
    Turn {
        answer,
        logged: Items::new(alloc),
        out,
        settled: true,
    }
}

/// Takes in a request.
pub(crate) fn deliver_request(
    site: &Site,
    held: &mut Held,
    request: &Request,
) -> Result<Turn<Delivered>, DeliverRefusal>
    requires may { MayDeliver site.now (lists_of held.old) request.now.from }
    requires frame { FitsAct request.now.act }
    requires few { request.now.number ≤ MAX_REQUESTS }
    ensures { DeliversIn site.now (lists_of held.old) (lists_of held.new) request.now.from (frames.Request request.now.group request.now.number request.now.act) result }
{
    match test_request(site, held, request) {
        Ok(()) => {}
        Err(why) => return Err(why),
    }
    match take_request(site, held, request) {
        Ok(turn) => Ok(turn),
        Err(_) => Err(DeliverRefusal::NoMemory),
    }
}

/// Takes in a request that the tests let pass.
fn take_request(
    site: &Site,
    held: &mut Held,
    request: &Request,
) -> Result<Turn<Delivered>, NoMemory>
    requires may { MayDeliver site.now (lists_of held.old) request.now.from }
    requires frame { FitsAct request.now.act }
    requires few { request.now.number ≤ MAX_REQUESTS }
    requires accepted { deliver_refusal (rules_at site.now) (setting_at site.now) (words (lists_of held.old)) site.now.me request.now.from (frames.Request request.now.group request.now.number request.now.act) ≡ None }
    ensures { TakesFrame site.now (lists_of held.old) (lists_of held.new) request.now.from (frames.Request request.now.group request.now.number request.now.act) result }
{
    let next = held.rulings.next(request.from, request.group);
    if request.number < next {
        return repeat_ruling(held, request);
    }
    if next < request.number {
        let alloc = *held.log.allocator();
        return Ok(plain(alloc, Delivered::Early, Outs::none(alloc)));
    }
    rule_request(site, held, request)
}

/// Tells the ruling on a request once more.
fn repeat_ruling(held: &Held, request: &Request) -> Result<Turn<Delivered>, NoMemory>
    requires from { request.now.from < length held.now.rulings }
    requires group { request.now.group < length (get_or held.now.rulings request.now.from []) }
    ensures { IfOk result (λ t. IsPlain t delivered.Repeat (back request.now.from request.now.group request.now.number (kept_ruling (numbered ((words (lists_of held.now)).rulings request.now.from request.now.group) request.now.number)))) }
{
    let alloc = *held.log.allocator();
    match held
        .rulings
        .kept(request.from, request.group, request.number)
    {
        None => Ok(plain(alloc, Delivered::Repeat, Outs::none(alloc))),
        Some(ruled) => {
            let rest = verdict_frame(room_for_one(alloc)?, request, ruled.ruling);
            Ok(plain(alloc, Delivered::Repeat, Outs::of_frames(rest)))
        }
    }
}

/// A verdict on a request, in a list that has room for it.
fn verdict_frame(rest: Vec<Out>, request: &Request, ruling: Ruling) -> Vec<Out>
    requires empty { rest.items ≡ [] }
    requires room { vec_len rest < vec_capacity rest }
    ensures { result.items ≡ record { to = request.now.from; frame = frames.Verdict request.now.group request.now.number ruling } ∷ [] }
{
    let frame = Frame::Verdict {
        group: request.group,
        number: request.number,
        ruling,
    };
    with_frame(rest, request.from, frame)
}

/// Makes room to keep the ruling on a request.
fn make_ruling_room(held: &mut Held, request: &Request) -> Result<(), NoMemory>
    requires from { request.now.from < length held.old.rulings }
    requires group { request.now.group < length (get_or held.old.rulings request.now.from []) }
    ensures lists { lists_of held.new ≡ lists_of held.old }
    ensures room { OnOk result (1 ≤ (giving.given_at held.new.rulings request.now.from request.now.group).spare) }
{
    held.rulings.reserve(request.from, request.group)
}

/// Keeps the ruling on the next request of its sender and group. There is room.
fn put_ruling(held: &mut Held, request: &Request, ruling: Ruling)
    requires from { request.now.from < length held.old.rulings }
    requires group { request.now.group < length (get_or held.old.rulings request.now.from []) }
    requires few { length ((words (lists_of held.old)).rulings request.now.from request.now.group) < MAX_REQUESTS }
    requires room { 1 ≤ (giving.given_at held.old.rulings request.now.from request.now.group).spare }
    ensures { lists_of held.new ≡ ruled_more (lists_of held.old) request.now.from request.now.group (record { act = request.now.act; ruling = ruling }) }
{
    held.rulings
        .rule_reserved(request.from, request.group, &request.act, &ruling);
}

/// Rules on a request without a call.
fn rule_plainly(
    held: &mut Held,
    rest: Vec<Out>,
    request: &Request,
    ruling: Ruling,
) -> Turn<Delivered>
    requires from { request.now.from < length held.old.rulings }
    requires group { request.now.group < length (get_or held.old.rulings request.now.from []) }
    requires few { length ((words (lists_of held.old)).rulings request.now.from request.now.group) < MAX_REQUESTS }
    requires room { 1 ≤ (giving.given_at held.old.rulings request.now.from request.now.group).spare }
    requires empty { rest.items ≡ [] }
    requires rest { vec_len rest < vec_capacity rest }
    ensures lists { lists_of held.new ≡ ruled_more (lists_of held.old) request.now.from request.now.group (record { act = request.now.act; ruling = ruling }) }
    ensures turn { IsPlain result delivered.Fresh (record { to = request.now.from; frame = frames.Verdict request.now.group request.now.number ruling } ∷ []) }
{
    let alloc = *held.log.allocator();
    put_ruling(held, request, ruling);
    let rest = verdict_frame(rest, request, ruling);
    plain(alloc, Delivered::Fresh, Outs::of_frames(rest))
}

/// Rules on a request that is the next of its sender and group.
fn rule_request(
    site: &Site,
    held: &mut Held,
    request: &Request,
) -> Result<Turn<Delivered>, NoMemory>
    requires may { MayRule site.now (lists_of held.old) request.now }
    ensures { TakesFrame site.now (lists_of held.old) (lists_of held.new) request.now.from (frames.Request request.now.group request.now.number request.now.act) result }
{
    let alloc = *held.log.allocator();
    let rest = room_for_one(alloc)?;
    make_ruling_room(held, request)?;
    let full = is_full(held, request.group);
    if full {
        return Ok(rule_plainly(held, rest, request, Ruling::Full));
    }
    let steps = site.steps(&request.act);
    match site.permits(&held.state, &request.act, &steps) {
        Outcome::Yes => rule_yes(site, held, rest, request, &steps),
        Outcome::Guard(guard) => Ok(rule_plainly(held, rest, request, Ruling::Guard(guard))),
        Outcome::Invariant(invariant) => {
            Ok(rule_plainly(held, rest, request, Ruling::Invariant(invariant)))
        }
    }
}

/// Decides the call of a request, keeps the ruling, and drains.
fn rule_yes(
    site: &Site,
    held: &mut Held,
    rest: Vec<Out>,
    request: &Request,
    steps: &Net,
) -> Result<Turn<Delivered>, NoMemory>
    requires may { MayRule site.now (lists_of held.old) request.now }
    requires short { length ((words (lists_of held.old)).decided request.now.group) < MAX_LANE_CALLS }
    requires permissible { (rules_at site.now).outcome held.old.state.content request.now.act ≡ outcomes.Yes }
    requires steps { AreSteps site.now request.now.act steps.now }
    requires room { 1 ≤ (giving.given_at held.old.rulings request.now.from request.now.group).spare }
    requires empty { rest.items ≡ [] }
    requires rest { vec_len rest < vec_capacity rest }
    ensures { TakesFrame site.now (lists_of held.old) (lists_of held.new) request.now.from (frames.Request request.now.group request.now.number request.now.act) result }
{
    let alloc = *held.log.allocator();
    let call = new_call(site, held, &request.act, request.group)?;
    let sent = call.copy()?;
    let ruling = Ruling::Applied(call.number);
    let mut places = Vec::new(alloc);
    make_out_room(held, &mut places, request.group)?;
    log_decided(site, held, &mut places, call, steps)?;
    put_ruling(held, request, ruling);
    let settled = drain(site, held, &mut places);
    let rest = verdict_frame(rest, request, ruling);
    Ok(Turn {
        answer: Delivered::Fresh,
        logged: Items::from(places),
        out: Outs::of_call(site.me(), site.replicas(), sent, rest),
        settled,
    })
}
