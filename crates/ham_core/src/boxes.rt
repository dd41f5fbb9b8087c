//! The frames that wait to be collected.

ghost use Rattle.std.specs.Prelude.{◌≡◌, ◌-◌, ◌≤◌, ◌↔◌, IsTrue, length, [], Some, IfOk, fold, drop, take, set, map, replicate};
ghost use Rattle.std.specs.List.{AllByRecursion};
ghost use Rattle.std.specs.Option.{option_copied};
ghost use Rattle.ham_site.specs.Outs.{calls_to, most_frames};
ghost use Rattle.ham_journal.specs.Cores.{with_room, box_of};
ghost use Rattle.ham_replica.specs.Values.{words};
ghost use Rattle.ham_core.specs.Waits.{put, put_at, call_for, shown, IsSound, AreSound};

use crate::waiting::Waiting;
use ham_frame::Frames;
use ham_journal::{MAX_COLLECTED, MAX_WAITING};
use ham_replica::{Outs, Parts, Replica};
use ham_syntax::{Call, Items, NoMemory};
use std::alloc::Global;
use std::collections::VecDeque;
use std::marker::Model;

/// The frames that wait, for each replica from 1. All their room is taken at first, so a frame that is put can't want
/// memory; one more than there is room for is dropped.
#[derive(Drop)]
pub(crate) struct Boxes {
    alloc: Global,
    held: Vec<VecDeque<Waiting>>,
}

impl Model for Boxes {
    ghost use Rattle.std.specs.Prelude.{List};
    ghost use Rattle.ham_core.specs.declared.waiting.Waiting.{Waiting};
    ghost use Rattle.ham_core.specs.Boxing.{lists_of, AreRoomy};

    ghost Value = { List (List Waiting) };

    ghost view = { λ b. lists_of b.held.items };

    ghost invariant = { λ b. AreRoomy b.held.items };
}

impl Boxes {
    /// So many empty boxes.
    pub(crate) fn new(alloc: Global, count: u8) -> Result<Boxes, NoMemory>
        ensures { IfOk result (λ boxes. boxes ≡ replicate count []) }
    {
        let mut held = Vec::new(alloc);
        for _number in 0..count {
            let queue = VecDeque::with_capacity(alloc, MAX_WAITING)?;
            held.push(queue)?;
        }
        Ok(Boxes { alloc, held })
    }

    /// Whether no frame waits for a peer.
    pub(crate) fn is_empty(&self, peer: u8) -> bool
        ensures { IsTrue result ↔ (box_of self.now peer ≡ []) }
    {
        let at = (peer as usize).saturating_sub(1);
        if at < self.held.len() {
            return self.held[at].is_empty();
        }
        true
    }

    /// Lets a frame wait, where there is room.
    fn put_one(&mut self, to: u8, waiting: Waiting)
        ensures { self.new ≡ put_at self.old to waiting }
    {
        let at = (to as usize).saturating_sub(1);
        if at < self.held.len() {
            push(&mut self.held[at], waiting);
        }
    }

    /// Lets a call wait for a replica, where that isn't `me`: for how many.
    fn put_for(&mut self, me: u8, to: u8, call: &Call) -> u8
        ensures boxes { self.new ≡ fold put self.old (call_for me to call.now) }
        ensures count { result ≡ length (call_for me to call.now) }
    {
        if to == me {
            return 0;
        }
        self.put_one(to, Waiting::Call(call.place()));
        1
    }

    /// Lets a call wait for each of so many replicas but `me`: how many they are.
    fn put_call(&mut self, me: u8, replicas: u8, call: &Call) -> u8
        ensures boxes { self.new ≡ fold put self.old (calls_to me replicas (Some call.now)) }
        ensures count { result ≡ length (calls_to me replicas (Some call.now)) }
    {
        let mut count = 0;
        for at in 0..replicas {
            count += self.put_for(me, at + 1, call);
        }
        count
    }

    /// The same where there is a call.
    fn put_calls(&mut self, me: u8, replicas: u8, call: Option<&Call>) -> u8
        ensures boxes { self.new ≡ fold put self.old (calls_to me replicas (option_copied call.entry)) }
        ensures count { result ≡ length (calls_to me replicas (option_copied call.entry)) }
    {
        match call {
            Some(call) => self.put_call(me, replicas, call),
            None => 0,
        }
    }

    /// Lets the frames of a turn wait, each where there is room: how many they are.
    pub(crate) fn put(&mut self, out: &Outs) -> u32
        requires { length out.now ≤ most_frames }
        ensures boxes { self.new ≡ fold put self.old out.now }
        ensures count { result ≡ length out.now }
    {
        let Parts {
            me,
            replicas,
            call,
            rest,
        } = out.parts();
        let calls = self.put_calls(me, replicas, call);
        for out in rest {
            self.put_one(out.to, Waiting::of(&out.frame));
        }
        u32::from(calls) + rest.len() as u32
    }

    /// The first frames that wait for a peer, in memory of their own. They still wait.
    pub(crate) fn first(&self, replica: &Replica, peer: u8) -> Result<Frames, NoMemory>
        requires { AreSound (words replica.now.lists).decided self.now }
        ensures { IfOk result (λ frames. frames ≡ map (shown (words replica.now.lists).decided) (take MAX_COLLECTED (box_of self.now peer))) }
    {
        let at = (peer as usize).saturating_sub(1);
        if at < self.held.len() {
            return first_of(self.alloc, &self.held[at], replica);
        }
        Ok(Items::new(self.alloc))
    }

    /// The first frames that wait for a peer do so no longer.
    pub(crate) fn drop_first(&mut self, peer: u8)
        ensures { self.new ≡ set self.old (peer - 1) (drop MAX_COLLECTED (box_of self.old peer)) }
    {
        let at = (peer as usize).saturating_sub(1);
        if at < self.held.len() {
            drop_first_of(&mut self.held[at]);
        }
    }
}

/// Puts what waits last, where there is room.
fn push(queue: &mut VecDeque<Waiting>, waiting: Waiting)
    requires room { MAX_WAITING ≤ queue.old.cap }
    ensures items { queue.new.items ≡ with_room queue.old.items waiting }
    ensures cap { queue.new.cap ≡ queue.old.cap }
{
    if queue.len() < MAX_WAITING {
        queue.push_back_reserved(waiting);
    }
}

fn first_of(alloc: Global, queue: &VecDeque<Waiting>, replica: &Replica) -> Result<Frames, NoMemory>
    requires { AllByRecursion (IsSound (words replica.now.lists).decided) queue.now.items }
    ensures { IfOk result (λ frames. frames ≡ map (shown (words replica.now.lists).decided) (take MAX_COLLECTED queue.now.items)) }
{
    let count = queue.len().min(MAX_COLLECTED);
    let mut frames = Vec::with_capacity(alloc, count)?;
    for at in 0..count {
        frames.push(queue[at].frame(replica)?)?;
    }
    Ok(Items::from(frames))
}

fn drop_first_of(queue: &mut VecDeque<Waiting>)
    ensures items { queue.new.items ≡ drop MAX_COLLECTED queue.old.items }
    ensures cap { queue.new.cap ≡ queue.old.cap }
{
    for _taken in 0..MAX_COLLECTED {
        let _first = queue.pop_front();
    }
}
