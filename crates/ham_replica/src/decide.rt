//! A call that is decided here.

ghost use Rattle.std.specs.Prelude.{◌≡◌, ◌+◌, ◌<◌, nat_le, true, [], ◌∷◌, ◌++◌, length, OnOk, IfOk, map, get_or};
ghost use Rattle.ham_meaning.specs.declared.outcome.Outcome.TheVariants as outcomes;
ghost use Rattle.ham_turns.specs.declared.turn.Issued.{Issued};
ghost use Rattle.ham_turns.specs.Words.{place_of};
ghost use Rattle.ham_turns.specs.Work.{new_call as call_of_act};
ghost use Rattle.ham_turns.specs.Ready.{IsSettled};
ghost use Rattle.ham_site.specs.Sites.{rules_at, setting_at, AreSteps};
ghost use Rattle.ham_replica.specs.Values.{words};
ghost use Rattle.ham_replica.specs.Steps.{put_decided};
ghost use Rattle.ham_replica.specs.Kept.{IsKept};
ghost use Rattle.ham_replica.specs.Shown.{lists_of, no_out_lane, HasOutRoom};
ghost use Rattle.ham_replica.specs.Issues.{MayDecide, Decides, AnswersIssue};

use crate::drain::{drain, push_place};
use crate::held::Held;
use ham_lane::OutLane;
use ham_lists::NoMemory;
use ham_meaning::Outcome;
use ham_site::{Outs, Site, Turn};
use ham_state::Net;
use ham_syntax::limits::MAX_LANE_CALLS;
use ham_syntax::{Act, Call, Deps, Items, Place};
use ham_turns::Issued;
use std::alloc::Global;

/// Whether a lane that is decided here has all the calls that it takes.
pub(crate) fn is_full(held: &Held, lane: u8) -> bool
    requires { lane < length held.now.outs.items }
    ensures { result ≡ nat_le MAX_LANE_CALLS (length ((words (lists_of held.now)).decided lane)) }
{
    let lane = &held.outs[lane as usize];
    lane.len() as usize >= MAX_LANE_CALLS
}

/// The counts of these slots.
fn counts_of(alloc: Global, slots: &[u16], counts: &[u32]) -> Result<Deps, NoMemory>
    ensures { IfOk result (λ deps. deps ≡ map (λ s. get_or counts.now s 0) slots.now) }
{
    let mut deps = Items::new(alloc);
    for slot in slots {
        deps.push(count_at(counts, *slot))?;
    }
    Ok(deps)
}

fn count_at(counts: &[u32], slot: u16) -> u32
    ensures { result ≡ get_or counts.now slot 0 }
{
    match counts.get(slot as usize) {
        Some(count) => *count,
        None => 0,
    }
}

/// The call that an act becomes in a lane that is decided here.
pub(crate) fn new_call(site: &Site, held: &Held, act: &Act, lane: u8) -> Result<Call, NoMemory>
    requires method { act.now.method < (setting_at site.now).methods }
    requires lane { lane < length held.now.outs.items }
    ensures { IfOk result (λ call. call ≡ call_of_act (setting_at site.now) (words (lists_of held.now)) lane act.now) }
{
    let alloc = *held.log.allocator();
    let deps = counts_of(alloc, site.needs_of(act.method), &held.counts)?;
    let out = &held.outs[lane as usize];
    Ok(Call {
        lane,
        number: out.len() + 1,
        act: *act,
        deps,
    })
}

/// Makes room to log a call that is decided here.
pub(crate) fn make_out_room(
    held: &mut Held,
    places: &mut Vec<Place>,
    lane: u8,
) -> Result<(), NoMemory>
    requires { lane < length held.old.outs.items }
    ensures lists { lists_of held.new ≡ lists_of held.old }
    ensures places { places.new.items ≡ places.old.items }
    ensures rulings { held.new.rulings ≡ held.old.rulings }
    ensures room { OnOk result (HasOutRoom held.new places.new lane) }
{
    places.reserve(1)?;
    held.log.reserve(1)?;
    let lane = &mut held.outs[lane as usize];
    lane.reserve()
}

/// Puts a call that is decided here into the log, its lane and its slot. There is room.
fn put_decided(held: &mut Held, places: &mut Vec<Place>, call: Call, slot: u16)
    requires lane { call.lane < length held.old.outs.items }
    requires logged { call.lane < length held.old.logged.items }
    requires slot { slot < length held.old.counts.items }
    requires few { get_or held.old.logged.items call.lane 0 < MAX_LANE_CALLS }
    requires many { get_or held.old.counts.items slot 0 < 4294967295 }
    requires number { call.number ≡ length (get_or held.old.outs.items call.lane no_out_lane).calls + 1 }
    requires short { length (get_or held.old.outs.items call.lane no_out_lane).calls < MAX_LANE_CALLS }
    requires room { HasOutRoom held.old places.old call.lane }
    ensures lists { lists_of held.new ≡ put_decided (lists_of held.old) call slot }
    ensures places { places.new.items ≡ places.old.items ++ place_of call ∷ [] }
    ensures rulings { held.new.rulings ≡ held.old.rulings }
{
    let lane = call.lane as usize;
    push_place(places, call.place());
    push_place(&mut held.log, call.place());
    held.counts[slot as usize] += 1;
    held.logged[lane] += 1;
    let lane = &mut held.outs[lane];
    lane.append_reserved(call);
}

/// Decides a call, for which there is room in every list.
pub(crate) fn log_decided(
    site: &Site,
    held: &mut Held,
    places: &mut Vec<Place>,
    call: Call,
    steps: &Net,
) -> Result<(), NoMemory>
    requires kept { IsKept site.now (lists_of held.old) }
    requires may { MayDecide site.now (lists_of held.old) call.act call.lane }
    requires call { call ≡ call_of_act (setting_at site.now) (words (lists_of held.old)) call.lane call.act }
    requires room { HasOutRoom held.old places.old call.lane }
    requires steps { AreSteps site.now call.act steps.now }
    ensures decides { Decides site.now (lists_of held.old) (lists_of held.new) places.old.items places.new.items call result }
    ensures rulings { held.new.rulings ≡ held.old.rulings }
{
    let slot = site.slot_of(call.act.method, site.me());
    site.apply(&mut held.state, &call.act, steps)?;
    put_decided(held, places, call, slot);
    Ok(())
}

/// Decides an act that is permissible, and drains.
fn decide_yes(
    site: &Site,
    held: &mut Held,
    act: &Act,
    lane: u8,
    steps: &Net,
) -> Result<Turn<Issued>, NoMemory>
    requires kept { IsKept site.now (lists_of held.old) }
    requires may { MayDecide site.now (lists_of held.old) act.now lane }
    requires permissible { (rules_at site.now).outcome held.old.state.content act.now ≡ outcomes.Yes }
    requires steps { AreSteps site.now act.now steps.now }
    ensures { AnswersIssue site.now (lists_of held.old) (lists_of held.new) act.now result }
{
    let alloc = *held.log.allocator();
    let call = new_call(site, held, act, lane)?;
    let sent = call.copy()?;
    let place = call.place();
    let mut places = Vec::new(alloc);
    make_out_room(held, &mut places, lane)?;
    log_decided(site, held, &mut places, call, steps)?;
    let settled = drain(site, held, &mut places);
    Ok(Turn {
        answer: Issued::Applied { place },
        logged: Items::from(places),
        out: Outs::of_call(site.me(), site.replicas(), sent, Vec::new(alloc)),
        settled,
    })
}

/// Decides an act that the tests of an issue let pass, in a lane that is decided here.
pub(crate) fn decide_here(
    site: &Site,
    held: &mut Held,
    act: &Act,
    lane: u8,
) -> Result<Turn<Issued>, NoMemory>
    requires kept { IsKept site.now (lists_of held.old) }
    requires may { MayDecide site.now (lists_of held.old) act.now lane }
    requires settled { IsSettled (setting_at site.now) (words (lists_of held.old)) }
    ensures { AnswersIssue site.now (lists_of held.old) (lists_of held.new) act.now result }
{
    let alloc = *held.log.allocator();
    let steps = site.steps(act);
    match site.permits(&held.state, act, &steps) {
        Outcome::Yes => decide_yes(site, held, act, lane, &steps),
        Outcome::Guard(guard) => Ok(impermissible(alloc, Outcome::Guard(guard))),
        Outcome::Invariant(invariant) => { Ok(impermissible(alloc, Outcome::Invariant(invariant))) }
    }
}

fn impermissible(alloc: Global, outcome: Outcome) -> Turn<Issued>
    ensures answer { result.answer ≡ Issued.Impermissible outcome }
    ensures logged { result.logged ≡ [] }
    ensures out { result.out ≡ [] }
    ensures settled { result.settled ≡ true }
{
    Turn {
        answer: Issued::Impermissible(outcome),
        logged: Items::new(alloc),
        out: Outs::none(alloc),
        settled: true,
    }
}
