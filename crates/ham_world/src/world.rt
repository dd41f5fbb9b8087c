//! The world.

ghost use Rattle.std.specs.Prelude.{◌≡◌, true, false, Err, IfOk, length, map, reverse, MatchOption, None, Some};
ghost use Rattle.ham_laws.specs.Constrained.{IsPlanned};
ghost use Rattle.ham_turns.specs.Settings.{IsReplica, setting_of};
ghost use Rattle.ham_turns.specs.Words.{numbered};
ghost use Rattle.ham_plan.specs.Lists.{In};
ghost use Rattle.ham_runs.specs.Runs.{execution, log_of, on_link};
ghost use Rattle.ham_world.specs.declared.refusal.StepRefusal.TheVariants as refusals;
ghost use Rattle.ham_world.specs.Worlds as worlds;

use crate::note::Note;
use crate::parts::Parts;
use crate::refusal::StepRefusal;
use crate::{event, look, open};
use ham_lists::{Items, NoMemory};
use ham_plan::Plan;
use ham_resend::Asked;
use ham_state::State;
use ham_syntax::{Act, Object, Place};
use ham_turns::Event;
use std::alloc::Global;
use std::marker::Model;

/// Replicas of an object, the links between them, and the run that they made.
#[derive(Drop)]
pub struct World {
    parts: Parts,
    stopped: bool,
}

impl Model for World {
    ghost use Rattle.ham_world.specs.Worlds.{Run};

    ghost Value = { Run };

    ghost use Rattle.ham_world.specs.Kept.{IsWorld, run_by};

    ghost view = { λ w. run_by w.parts.object w.parts.plan w.parts.notes.items w.stopped };

    ghost invariant = { λ w. IsWorld w.parts w.stopped };
}

impl World {
    /// The world before its first event.
    pub fn new(alloc: Global, object: &Object, plan: &Plan) -> Result<World, NoMemory>
        requires { IsPlanned object.now plan.now }
        ensures { IfOk result (λ w. w ≡ worlds.begun object.now plan.now) }
    {
        let replicas = open::replicas(alloc, object, plan)?;
        let links = open::links(alloc)?;
        let decoders = open::decoders(alloc)?;
        let copy = object.copy()?;
        Ok(World {
            parts: Parts {
                object: copy,
                plan: *plan,
                replicas,
                links,
                decoders,
                spelled: Items::new(alloc),
                notes: Vec::new(alloc),
                sent: 0,
            },
            stopped: false,
        })
    }

    /// The next event, and how many turns it made. A refused one leaves the world; once memory ran out, each answer says so.
    pub fn step(&mut self, alloc: Global, event: &Event) -> Result<usize, StepRefusal>
        ensures steps { worlds.Steps self.old self.new event.now result }
        ensures stopped { self.old.stopped ≡ true → result ≡ Err refusals.NoMemory }
    {
        if self.stopped {
            return Err(StepRefusal::NoMemory);
        }
        let before = self.parts.notes.as_slice().len();
        match event::step(alloc, &mut self.parts, event) {
            Ok(()) => Ok(self.parts.notes.as_slice().len() - before),
            Err(StepRefusal::NoMemory) => {
                self.stopped = true;
                Err(StepRefusal::NoMemory)
            }
            Err(why) => Err(why),
        }
    }

    /// The object.
    pub fn object(&self) -> &Object
        ensures object { result.now ≡ self.now.object }
        ensures planned { IsPlanned self.now.object self.now.plan }
    {
        &self.parts.object
    }

    /// How many replicas there are.
    pub fn replicas(&self) -> u8
        ensures replicas { result ≡ self.now.plan.replicas }
    {
        self.parts.plan.replicas()
    }

    /// The notes so far, the oldest first.
    pub fn notes(&self) -> &[Note]
        ensures { result.now ≡ map worlds.shown (reverse self.now.notes) }
    {
        &self.parts.notes
    }

    /// How many frames were sent on a link.
    pub fn sent(&self, from: u8, to: u8) -> u64
        requires going { self.now.stopped ≡ false }
        requires from { IsReplica (setting_of self.now.plan) from }
        requires to { IsReplica (setting_of self.now.plan) to }
        ensures { result ≡ length (on_link self.now.notes from to) }
    {
        look::sent(&self.parts, from, to)
    }

    /// The bytes of a frame of a link; none exactly where no such frame was sent.
    pub fn frame(&self, from: u8, to: u8, frame: u64) -> Option<&[u8]>
        requires going { self.now.stopped ≡ false }
        requires from { IsReplica (setting_of self.now.plan) from }
        requires to { IsReplica (setting_of self.now.plan) to }
        ensures { MatchOption result (numbered (on_link self.now.notes from to) frame ≡ None)
            (λ bytes. worlds.bytes_of (numbered (on_link self.now.notes from to) frame) ≡ Some bytes.now) }
    {
        look::frame(&self.parts, from, to, frame)
    }

    /// The log of a replica.
    pub fn log(&self, replica: u8) -> &[Place]
        requires going { self.now.stopped ≡ false }
        requires replica { IsReplica (setting_of self.now.plan) replica }
        ensures { result.now ≡ log_of self.now.notes replica }
    {
        look::log(&self.parts, replica)
    }

    /// The act of a call in the log of a replica: the one with which it was decided.
    pub fn act(&self, replica: u8, place: &Place) -> Act
        requires going { self.now.stopped ≡ false }
        requires replica { IsReplica (setting_of self.now.plan) replica }
        requires logged { In place.now (log_of self.now.notes replica) }
        ensures { result ≡ (execution self.now.notes).act place.now }
    {
        look::act(&self.parts, replica, place)
    }

    /// The state of a replica, which was opened for the object.
    pub fn state(&self, replica: u8) -> &State
        requires going { self.now.stopped ≡ false }
        requires replica { IsReplica (setting_of self.now.plan) replica }
        ensures state { result.now.content
            ≡ worlds.state_at self.now.object (setting_of self.now.plan) self.now.notes replica }
        ensures opened { result.now.invariants ≡ self.now.object.invariants }
    {
        look::state(&self.parts, replica)
    }

    /// What a replica knows of its request to a group.
    pub fn verdict(&self, replica: u8, group: u64, number: u64) -> Asked
        requires going { self.now.stopped ≡ false }
        requires replica { IsReplica (setting_of self.now.plan) replica }
        ensures { result ≡ worlds.asked_of self.now.notes replica group number }
    {
        look::verdict(&self.parts, replica, group, number)
    }

    /// Whether the logs of two replicas hold the same calls.
    pub fn same_calls(&self, one: u8, other: u8) -> bool
        requires going { self.now.stopped ≡ false }
        requires one { IsReplica (setting_of self.now.plan) one }
        requires other { IsReplica (setting_of self.now.plan) other }
        ensures { result ≡ worlds.same_calls (log_of self.now.notes one) (log_of self.now.notes other) }
    {
        look::same_calls(&self.parts, one, other)
    }
}
