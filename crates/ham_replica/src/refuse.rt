//! The tests of a delivery, in order.

ghost use Rattle.std.specs.Prelude.{◌≡◌, ◌<◌, length, get_or, is_some, []};
ghost use Rattle.std.specs.Option.{option_copied};
ghost use Rattle.ham_frame.specs.declared.frame.Frame.TheVariants as frames;
ghost use Rattle.ham_turns.specs.Settings.{IsReplica};
ghost use Rattle.ham_turns.specs.Words.{place_of, numbered};
ghost use Rattle.ham_turns.specs.Refusals as tests;
ghost use Rattle.ham_site.specs.Sites.{rules_at, setting_at};
ghost use Rattle.ham_replica.specs.Values.{words};
ghost use Rattle.ham_replica.specs.Shown.{lists_of};
ghost use Rattle.ham_replica.specs.Deliveries.{Tests, MayDeliver};

use crate::held::{Held, Request};
use ham_frame::Frame;
use ham_site::Site;
use ham_syntax::{Act, Call, Place};
use ham_turns::DeliverRefusal;

fn same_act(a: &Act, b: &Act) -> bool
    ensures { result ≡ tests.same_act a.now b.now }
{
    a.method == b.method && a.args.items() == b.args.items()
}

fn same_call(a: &Call, b: &Call) -> bool
    ensures { result ≡ tests.same_call a.now b.now }
{
    a.lane == b.lane
        && (a.number == b.number && (same_act(&a.act, &b.act) && a.deps.items() == b.deps.items()))
}

/// The call of a place that came and is logged.
pub(crate) fn call_came<'a>(held: &'a Held, place: &Place) -> Option<&'a Call>
    ensures { option_copied result ≡ numbered (get_or (lists_of held.now).came place.now.lane []) place.now.number }
{
    match held.ins.get(place.lane as usize) {
        Some(lane) => lane.call(place.number),
        None => None,
    }
}

/// The call of a place that came here, logged or waiting.
fn call_kept<'a>(held: &'a Held, place: &Place) -> Option<&'a Call>
    ensures { option_copied result ≡ (words (lists_of held.now)).kept place.now }
{
    match call_came(held, place) {
        Some(call) => Some(call),
        None => held.buffer.kept(place),
    }
}

/// Whether the call of a place came here.
pub(crate) fn is_kept(held: &Held, place: &Place) -> bool
    ensures { result ≡ is_some ((words (lists_of held.now)).kept place.now) }
{
    call_kept(held, place).is_some()
}

/// Whether another call of the same place came before.
fn test_same_call(held: &Held, call: &Call) -> Result<(), DeliverRefusal>
    ensures { Tests (tests.first_of (tests.calls_differ call.now ((words (lists_of held.now)).kept (place_of call.now)))) result }
{
    match call_kept(held, &call.place()) {
        None => Ok(()),
        Some(kept) => {
            if same_call(call, kept) {
                return Ok(());
            }
            match kept.copy() {
                Ok(kept) => Err(DeliverRefusal::Differs {
                    kept: Frame::Call(kept),
                }),
                Err(_) => Err(DeliverRefusal::NoMemory),
            }
        }
    }
}

/// The tests of a call that comes.
pub(crate) fn test_call(
    site: &Site,
    held: &Held,
    from: u8,
    call: &Call,
) -> Result<(), DeliverRefusal>
    requires { IsReplica (setting_at site.now) from }
    ensures { Tests (tests.deliver_refusal (rules_at site.now) (setting_at site.now) (words (lists_of held.now)) site.now.me from (frames.Call call.now)) result }
{
    let yours = site.is_decided_by(call.lane, from);
    if !yours {
        return Err(DeliverRefusal::NotYours);
    }
    let method = site.has_lane(call.act.method, from, call.lane);
    if !method {
        return Err(DeliverRefusal::BadMethod);
    }
    let args = site.args_fit(&call.act);
    if !args {
        return Err(DeliverRefusal::BadArgs);
    }
    let deps = site.has_deps(call);
    if !deps {
        return Err(DeliverRefusal::BadDeps);
    }
    test_same_call(held, call)
}

/// Whether another request of the same number was ruled on before.
fn test_same_request(held: &Held, request: &Request) -> Result<(), DeliverRefusal>
    requires from { request.now.from < length held.now.rulings }
    requires group { request.now.group < length (get_or held.now.rulings request.now.from []) }
    ensures { Tests (tests.first_of (tests.requests_differ request.now.group request.now.number request.now.act (numbered ((words (lists_of held.now)).rulings request.now.from request.now.group) request.now.number))) result }
{
    match held
        .rulings
        .kept(request.from, request.group, request.number)
    {
        None => Ok(()),
        Some(ruled) => {
            if same_act(&request.act, &ruled.act) {
                return Ok(());
            }
            Err(DeliverRefusal::Differs {
                kept: Frame::Request {
                    group: request.group,
                    number: request.number,
                    act: ruled.act,
                },
            })
        }
    }
}

/// The tests of a request that comes.
pub(crate) fn test_request(
    site: &Site,
    held: &Held,
    request: &Request,
) -> Result<(), DeliverRefusal>
    requires { MayDeliver site.now (lists_of held.now) request.now.from }
    ensures { Tests (tests.deliver_refusal (rules_at site.now) (setting_at site.now) (words (lists_of held.now)) site.now.me request.now.from (frames.Request request.now.group request.now.number request.now.act)) result }
{
    let yours = site.is_led_by(request.group, site.me());
    if !yours {
        return Err(DeliverRefusal::NotYours);
    }
    let method = site.has_lane(request.act.method, request.from, request.group);
    if !method {
        return Err(DeliverRefusal::BadMethod);
    }
    let args = site.args_fit(&request.act);
    if !args {
        return Err(DeliverRefusal::BadArgs);
    }
    test_same_request(held, request)
}
