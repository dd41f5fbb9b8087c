//! The drain: ready calls are logged, the one of the least lane first.

ghost use Rattle.std.specs.Prelude.{◌≡◌, ◌+◌, ◌<◌, ◌≤◌, Some, ◌∷◌, [], ◌++◌, length, OnOk, get_or, slice_index};
ghost use Rattle.ham_buffer.specs.Buffers.{IsNextReady};
ghost use Rattle.ham_turns.specs.Words.{place_of};
ghost use Rattle.ham_replica.specs.Shown.{lists_of, no_in_lane, HasPlace, HasRoom, LogsNext, LogsOrNot};
ghost use Rattle.ham_replica.specs.Steps.{put_came};
ghost use Rattle.ham_replica.specs.Kept.{IsKept};
ghost use Rattle.ham_replica.specs.Drains.{Drains};

use crate::held::{Held, Next};
use ham_lane::InLane;
use ham_lists::NoMemory;
use ham_site::Site;
use ham_syntax::limits::MAX_LANE_CALLS;
use ham_syntax::{Call, Place};

/// Makes room to log a call of the lane, and to tell its place.
fn make_room(held: &mut Held, places: &mut Vec<Place>, lane: u8) -> Result<(), NoMemory>
    requires { lane < length held.old.ins.items }
    ensures lists { lists_of held.new ≡ lists_of held.old }
    ensures places { places.new.items ≡ places.old.items }
    ensures room { OnOk result (HasRoom held.new places.new lane) }
{
    places.reserve(1)?;
    held.log.reserve(1)?;
    let lane = &mut held.ins[lane as usize];
    lane.reserve()
}

/// Puts a place last, for which there is room.
pub(crate) fn push_place(places: &mut Vec<Place>, place: Place)
    requires { HasPlace places.old }
    ensures { places.new.items ≡ places.old.items ++ place ∷ [] }
{
    places.push_reserved(place);
}

/// Puts a call that waited into the log, its lane and its slot. There is room.
fn put_came(held: &mut Held, places: &mut Vec<Place>, call: Call, slot: u16)
    requires lane { call.lane < length held.old.ins.items }
    requires logged { call.lane < length held.old.logged.items }
    requires slot { slot < length held.old.counts.items }
    requires few { slice_index held.old.logged.items call.lane < MAX_LANE_CALLS }
    requires many { slice_index held.old.counts.items slot < 4294967295 }
    requires number { call.number ≡ length (get_or held.old.ins.items call.lane no_in_lane).calls + 1 }
    requires short { length (get_or held.old.ins.items call.lane no_in_lane).calls < MAX_LANE_CALLS }
    requires room { HasRoom held.old places.old call.lane }
    ensures lists { lists_of held.new ≡ put_came (lists_of held.old) call slot }
    ensures places { places.new.items ≡ places.old.items ++ place_of call ∷ [] }
{
    let lane = call.lane as usize;
    push_place(places, call.place());
    push_place(&mut held.log, call.place());
    held.counts[slot as usize] += 1;
    held.logged[lane] += 1;
    let lane = &mut held.ins[lane];
    lane.accept_reserved(call);
}

/// Logs the ready call of the least lane, which waits at the place, where there is memory to apply it. It is applied
/// before it is taken out: so no call is ever in neither list.
fn log_waiting(site: &Site, held: &mut Held, places: &mut Vec<Place>, place: &Place) -> bool
    requires kept { IsKept site.now (lists_of held.old) }
    requires first { IsNextReady held.old.buffer held.old.logged.items held.old.counts.items (Some place.now) }
    requires room { HasRoom held.old places.old place.now.lane }
    ensures { LogsOrNot site.now (lists_of held.old) (lists_of held.new) places.old.items places.new.items result }
{
    let act = match held.buffer.kept(place) {
        Some(call) => call.act,
        None => return false,
    };
    let steps = site.steps(&act);
    match site.apply(&mut held.state, &act, &steps) {
        Ok(()) => {}
        Err(_) => return false,
    }
    match held.buffer.take(place) {
        Some(call) => {
            let slot = site.slot_of(act.method, site.decider_of(place.lane));
            put_came(held, places, call, slot);
            true
        }
        None => false,
    }
}

/// Where the ready call of the least lane waits, if one is ready.
fn next_ready(site: &Site, held: &mut Held) -> Option<Place>
    requires { IsKept site.now (lists_of held.old) }
    ensures first { IsNextReady held.old.buffer held.old.logged.items held.old.counts.items result }
    ensures lists { lists_of held.new ≡ lists_of held.old }
{
    held.buffer.next_ready(&held.logged, &held.counts)
}

/// Logs the ready call of the least lane, if one is ready and there is memory.
fn log_next(site: &Site, held: &mut Held, places: &mut Vec<Place>) -> Next
    requires { IsKept site.now (lists_of held.old) }
    ensures { LogsNext site.now (lists_of held.old) (lists_of held.new) places.old.items places.new.items result }
{
    let Some(place) = next_ready(site, held) else {
        return Next::Settled;
    };
    if make_room(held, places, place.lane).is_err() {
        return Next::Stuck;
    }
    if log_waiting(site, held, places, &place) {
        Next::Logged
    } else {
        Next::Stuck
    }
}

/// Logs what is ready, the call of the least lane first, until nothing is ready or memory runs out. Whether nothing is.
pub(crate) fn drain(site: &Site, held: &mut Held, places: &mut Vec<Place>) -> bool
    requires { IsKept site.now (lists_of held.old) }
    ensures { Drains site.now (lists_of held.old) (lists_of held.new) places.old.items places.new.items result }
{
    'drain: loop {
        match log_next(site, held, places) {
            Next::Logged => {}
            Next::Settled => return true,
            Next::Stuck => return false,
        }
    }
}
