//! The door with the lock, and how feeders sleep until a frame waits for them.

ghost use Rattle.std.specs.Prelude.{◌≡◌, ◌≤◌, [], length, None, vec_capacity};
ghost use Rattle.std.specs.List.{AllByRecursion};
ghost use Rattle.ham_turns.specs.Settings.{setting_of};
ghost use Rattle.ham_journal.specs.Replies.{MayEnter, IsOfKind, FitsReply};
ghost use Rattle.ham_core.specs.Doors.{Moves};
ghost use Rattle.ham_core.specs.Each.{EntersEach, standing};

use ham_core::door::{Tally, count};
use ham_core::each::enter_each;
use ham_core::{Door, Guarded, Home, Input, Reply, Seat};
use ham_links::Clock;
use std::collections::VecDeque;
use std::hint::spin_loop;
use std::sync::{Condvar, Mutex, MutexGuard, Wait};

/// How often a worker looks whether the lock is free before it sleeps for it. An entry takes less than a microsecond under
/// the lock, far less than a thread takes to fall asleep and be woken.
const LOOKS: u32 = 2_000;

/// The bell of a peer's feeder. It is rung once the lock is let go, where the feeder sleeps and a frame waits, or the node was
/// stopped. That a feeder wakes is not claimed: a lost ring costs no more than the time to the next tick that sends.
#[derive(Drop)]
pub struct Bells {
    one: Condvar,
    two: Condvar,
    three: Condvar,
    four: Condvar,
    five: Condvar,
    six: Condvar,
    seven: Condvar,
    eight: Condvar,
}

impl Bells {
    /// A bell for each replica.
    pub fn new() -> Bells {
        Bells {
            one: Condvar::new(),
            two: Condvar::new(),
            three: Condvar::new(),
            four: Condvar::new(),
            five: Condvar::new(),
            six: Condvar::new(),
            seven: Condvar::new(),
            eight: Condvar::new(),
        }
    }

    fn of(&self, peer: u8) -> &Condvar {
        match peer {
            1 => &self.one,
            2 => &self.two,
            3 => &self.three,
            4 => &self.four,
            5 => &self.five,
            6 => &self.six,
            7 => &self.seven,
            _ => &self.eight,
        }
    }

    fn ring(&self, due: u16) {
        for peer in 1u8..9 {
            if due & (1u16 << peer) != 0 {
                self.of(peer).notify_all();
            }
        }
    }
}

/// The feeders that are to be woken, one bit for each peer.
fn due<L: Home>(guarded: &mut Guarded<L>) -> u16
    ensures { guarded.new ≡ guarded.old }
{
    let mut due = 0u16;
    for peer in 1u8..9 {
        if guarded.wakes(peer) {
            due |= 1u16 << peer;
        }
    }
    due
}

/// The node, locked: whether the lock is free is looked at for a while, and then the thread sleeps until it is.
fn take<'b, R: Wait, L: Home>(rt: &R, lock: &'b Mutex<Guarded<L>>) -> MutexGuard<'b, Guarded<L>> {
    for _ in 0..LOOKS {
        if let Some(guard) = lock.try_lock() {
            return guard;
        }
        spin_loop();
    }
    lock.lock(rt)
}

/// Enters an input under the lock, and rings once it is let go.
fn enter_locked<R: Wait, L: Home>(
    rt: &R,
    lock: &Mutex<Guarded<L>>,
    bells: &Bells,
    seat: &mut Seat<L>,
    input: Input,
) -> Reply
    requires { MayEnter (setting_of L.plan) L.me input }
    ensures kind { IsOfKind input result }
    ensures fits { FitsReply result }
    ensures moves { Moves result seat.old.share.amount seat.new.share.amount }
    ensures number { seat.new.number ≡ seat.old.number }
{
    let mut guard = take(rt, lock);
    let reply = guard.enter(seat, input);
    let due = due(&mut *guard);
    drop(guard);
    bells.ring(due);
    reply
}

/// Enters inputs in order by one taking of the lock, and rings once it is let go.
fn enter_all_locked<R: Wait, L: Home>(
    rt: &R,
    lock: &Mutex<Guarded<L>>,
    bells: &Bells,
    seat: &mut Seat<L>,
    tally: &mut Tally,
    inputs: &mut VecDeque<Input>,
    replies: &mut Vec<Reply>,
) -> bool
    requires may { AllByRecursion (MayEnter (setting_of L.plan) L.me) inputs.old.items }
    requires empty { replies.old.items ≡ [] }
    requires room { length inputs.old.items ≤ vec_capacity replies.old }
    ensures told { EntersEach L.object L.plan L.me (standing None seat.old.share.amount tally.old.stops tally.old.fulls tally.old.refusals)
        (standing None seat.new.share.amount tally.new.stops tally.new.fulls tally.new.refusals) inputs.old.items inputs.new.items replies.new.items result }
    ensures number { seat.new.number ≡ seat.old.number }
{
    let mut guard = take(rt, lock);
    let stopped = enter_each(&mut *guard, seat, tally, inputs, replies);
    let due = due(&mut *guard);
    drop(guard);
    bells.ring(due);
    stopped
}

/// A door that shares its node with others. It tells no journal, since others enter too; it tells how many entries it made.
#[derive(Drop)]
pub struct Locked<'a, R: Wait, L: Home> {
    rt: &'a R,
    lock: &'a Mutex<Guarded<L>>,
    bells: &'a Bells,
    seat: Seat<L>,
    tally: Tally,
}

impl<'a, R: Wait, L: Home> Locked<'a, R, L> {
    /// A door with a seat of the node.
    pub fn new(
        rt: &'a R,
        lock: &'a Mutex<Guarded<L>>,
        bells: &'a Bells,
        seat: Seat<L>,
    ) -> Locked<'a, R, L>
        ensures { result.seat ≡ seat }
    {
        Locked {
            rt,
            lock,
            bells,
            seat,
            tally: Tally::new(),
        }
    }

    /// How often it answered that the node is or was stopped.
    pub fn stops(&self) -> u64
        ensures { result ≡ self.now.tally.stops }
    {
        self.tally.stops
    }

    /// The seat.
    pub fn seat(self) -> Seat<L>
        ensures { result ≡ self.entry.seat }
    {
        let Locked {
            rt: _,
            lock: _,
            bells: _,
            seat,
            tally: _,
        } = self;
        seat
    }
}

impl<'a, R: Wait, L: Home> Door for Locked<'a, R, L> {
    ghost object = { λ d. L.object };

    ghost plan = { λ d. L.plan };

    ghost me = { λ d. L.me };

    ghost history = { λ d. None };

    ghost entries = { λ d. d.seat.share.amount };

    ghost stops = { λ d. d.tally.stops };

    ghost fulls = { λ d. d.tally.fulls };

    ghost refusals = { λ d. d.tally.refusals };

    fn enter(&mut self, input: Input) -> Reply {
        let reply = enter_locked(self.rt, self.lock, self.bells, &mut self.seat, input);
        count(&mut self.tally, &reply);
        reply
    }

    fn enter_all(&mut self, inputs: &mut VecDeque<Input>, replies: &mut Vec<Reply>) -> bool {
        if inputs.is_empty() {
            return false;
        }
        enter_all_locked(
            self.rt,
            self.lock,
            self.bells,
            &mut self.seat,
            &mut self.tally,
            inputs,
            replies,
        )
    }

    fn stopped(&mut self) -> bool {
        let stopped = self.lock.lock(self.rt).stopped();
        if stopped {
            self.tally.stops = self.tally.stops.saturating_add(1);
        }
        stopped
    }
}

/// A clock of a peer's feeder: it pauses until a frame waits for the peer, or the node was stopped.
#[derive(Drop)]
pub struct Waiter<'a, R: Wait, L: Home> {
    rt: &'a R,
    lock: &'a Mutex<Guarded<L>>,
    bells: &'a Bells,
    peer: u8,
}

impl<'a, R: Wait, L: Home> Waiter<'a, R, L> {
    /// A clock of the feeder of this peer.
    pub fn new(
        rt: &'a R,
        lock: &'a Mutex<Guarded<L>>,
        bells: &'a Bells,
        peer: u8,
    ) -> Waiter<'a, R, L>
        ensures { result.peer ≡ peer }
    {
        Waiter {
            rt,
            lock,
            bells,
            peer,
        }
    }
}

impl<'a, R: Wait, L: Home> Clock for Waiter<'a, R, L> {
    fn pause(&mut self) {
        let peer = self.peer;
        let bell = self.bells.of(peer);
        let guard = bell.wait_while(self.rt, self.lock.lock(self.rt), |g| g.sleeps(peer));
        drop(guard);
    }
}
