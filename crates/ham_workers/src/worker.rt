//! A worker, and what it does.

ghost use Rattle.std.specs.Prelude.{◌≡◌, ◌<◌};
ghost use Rattle.ham_peer.specs.Delivering.{IsGreeting};

use crate::duties::{Duty, tend_opened};
use ham_core::{Door, Guarded, Home, Seat};
use ham_links::{Clock, Port};
use ham_node::{Bells, Locked, Waiter, beat};
use ham_peer::Greeting;
use ham_syntax::Object;
use std::alloc::Global;
use std::sync::{Mutex, Wait};

/// What a worker gives back at its end: its seat, and how often its door answered that the node is or was stopped, which it
/// did.
#[derive(Drop)]
pub struct Ended<L: Home> {
    pub seat: Seat<L>,
    pub stops: u64,
    pub ghost stopped: { 0 < stops },
}

/// What a thread does for its seat.
pub trait Job<L: Home> {
    /// Works to its end.
    fn run(self) -> Ended<L>;
}

/// What a worker is to do until the node is stopped.
#[derive(Drop)]
pub enum Task<L: Home, P: Port + Drop> {
    /// Tick.
    Beat,
    /// Do a duty on the links of a port, one after another.
    Tend { duty: Duty<L>, port: P },
}

/// A worker of a node: what it shares with the others, its seat and clock, and its task.
#[derive(Drop)]
pub struct Worker<'a, R: Wait, L: Home, P: Port + Drop, C: Clock + Drop> {
    pub(crate) rt: &'a R,
    pub(crate) alloc: Global,
    pub(crate) lock: &'a Mutex<Guarded<L>>,
    pub(crate) bells: &'a Bells,
    pub(crate) object: &'a Object,
    /// The node's own greeting.
    pub(crate) greeting: Greeting,
    pub(crate) seat: Seat<L>,
    pub(crate) clock: C,
    pub(crate) task: Task<L, P>,
    pub(crate) ghost home: { object.now ≡ L.object },
    pub(crate) ghost greets: { IsGreeting greeting },
}

/// What a worker gives back whose door answered that the node is or was stopped.
fn end_with<R: Wait, L: Home>(door: Locked<'_, R, L>) -> Ended<L>
    requires { 0 < door.tally.stops }
{
    let stops = door.stops();
    Ended {
        seat: door.seat(),
        stops,
    }
}

impl<'a, R: Wait, L: Home, P: Port + Drop, C: Clock + Drop> Job<L> for Worker<'a, R, L, P, C> {
    fn run(self) -> Ended<L> {
        let Worker {
            rt,
            alloc,
            lock,
            bells,
            object,
            greeting,
            seat,
            mut clock,
            task,
        } = self;
        let mut door = Locked::new(rt, lock, bells, seat);
        let Task::Tend { duty, mut port } = task else {
            beat(rt, &mut door, &mut clock);
            return end_with(door);
        };
        let mut bell = Waiter::new(rt, lock, bells, duty.peer());
        for _ in rt.forever() {
            if door.stopped() {
                return end_with(door);
            }
            let opened = port.open();
            if tend_opened(
                rt, alloc, object, &duty, &greeting, &mut door, opened, &mut bell, &mut clock,
            ) {
                return end_with(door);
            }
        }
        unreachable!()
    }
}
