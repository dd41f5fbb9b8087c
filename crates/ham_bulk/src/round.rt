//! Rounds: each draws an event, or none.

ghost use Rattle.std.specs.Prelude.{◌≡◌, ◌<◌, ◌≤◌, ◌+◌, false, length};
ghost use Rattle.std.specs.List.{AllByRecursion};
ghost use Rattle.ham_turns.specs.Settings.{IsReplica, setting_of};
ghost use Rattle.ham_world.specs.Worlds.{Run};
ghost use Rattle.ham_bulk.specs.Scripts as scripts;

use crate::drawing::{arguments, drawn, next};
use ham_syntax::{Act, Object};
use ham_turns::Event;
use ham_world::World;

/// What a round draws: an event, or none, and the number after it.
#[derive(Debug, Drop)]
pub struct Draw {
    pub event: Option<Event>,
    pub number: u64,
}

impl Draw {
    /// No event.
    fn none(number: u64) -> Draw
        ensures { result ≡ scripts.none_drawn number }
    {
        Draw {
            event: None,
            number,
        }
    }
}

/// What the next round draws: by the first draw, of 256, a tick, a delivery of a frame that was sent, or an issue.
#[tactic(auto, unfolding(crate::specs::Scripts::round))]
pub(crate) fn round(world: &World, number: u64) -> Draw
    requires { world.now.stopped ≡ false }
    ensures { result ≡ scripts.round world.now.object (setting_of world.now.plan) world.now.notes number }
{
    let sort = drawn(number, 256);
    let number = next(number);
    if sort == 0 {
        tick(world, number)
    } else if sort <= 127 {
        deliver(world, number)
    } else {
        issue(world, number)
    }
}

/// A replica, by its number.
#[tactic(auto, unfolding(ham_turns::specs::Settings::setting_of))]
fn replica(world: &World, number: u64) -> u8
    ensures drawn { result ≡ scripts.replica_drawn (setting_of world.now.plan) number }
    ensures is { IsReplica (setting_of world.now.plan) result }
{
    let _planned = world.object();
    one_of(world.replicas(), number)
}

/// One of so many, from 1.
fn one_of(count: u8, number: u64) -> u8
    requires { 0 < count }
    ensures drawn { result ≡ scripts.drawn number count + 1 }
    ensures some { 1 ≤ result }
    ensures few { result ≤ count }
{
    drawn(number, u64::from(count)) as u8 + 1
}

fn tick(world: &World, number: u64) -> Draw
    ensures { result ≡ scripts.tick_drawn (setting_of world.now.plan) number }
{
    Draw {
        event: Some(Event::Tick {
            replica: u64::from(replica(world, number)),
        }),
        number: next(number),
    }
}

fn deliver(world: &World, number: u64) -> Draw
    requires { world.now.stopped ≡ false }
    ensures { result ≡ scripts.deliver_drawn (setting_of world.now.plan) world.now.notes number }
{
    let from = replica(world, number);
    let to = replica(world, next(number));
    frame(from, to, world.sent(from, to), next(next(number)))
}

/// A frame of a link on which so many were sent.
fn frame(from: u8, to: u8, count: u64, number: u64) -> Draw
    ensures { result ≡ scripts.frame_drawn from to count number }
{
    if from == to || count == 0 {
        return Draw::none(number);
    }
    Draw {
        event: Some(Event::Deliver {
            from: u64::from(from),
            to: u64::from(to),
            frame: drawn(number, count) + 1,
        }),
        number: next(number),
    }
}

fn issue(world: &World, number: u64) -> Draw
    ensures { result ≡ scripts.issue_drawn world.now.object (setting_of world.now.plan) number }
{
    let count = world.object().methods().len();
    if count == 0 {
        return Draw::none(number);
    }
    let replica = replica(world, number);
    let method = drawn(next(number), count as u64) as u8;
    act(world.object(), replica, method, next(next(number)))
}

/// An act of the method, issued at the replica.
fn act(object: &Object, replica: u8, method: u8, number: u64) -> Draw
    requires { method < length object.now.methods }
    ensures { result ≡ scripts.act_drawn object.now replica method number }
{
    let params = object.methods()[usize::from(method)].params.items();
    let (args, number) = arguments(params, number);
    Draw {
        event: Some(Event::Issue {
            replica: u64::from(replica),
            act: Act { method, args },
        }),
        number,
    }
}
