//! A script in the making: its events are taken by a world, one after another.

ghost use Rattle.std.specs.Prelude.{◌≡◌, false, [], Some, None, OnOk, is_some};
ghost use Rattle.ham_turns.specs.Settings.{setting_of};
ghost use Rattle.ham_bulk.specs.Scripts as scripts;
ghost use Rattle.ham_replay.specs.Ends.{is_memory};
ghost use Rattle.ham_bulk.specs.Drafts.{seen, IsAfter};

use crate::round::{Draw, round};
use ham_lists::{Items, NoMemory};
use ham_replay::reason_of;
use ham_turns::Event;
use ham_world::{StepRefusal, World};
use std::alloc::Global;

/// The number, the events that were taken, and why the next wasn't, if one wasn't: then no more are taken.
#[derive(Drop)]
pub struct Draft {
    pub number: u64,
    pub events: Items<Event>,
    pub refused: Option<StepRefusal>,
}

impl Draft {
    /// Before the first round.
    pub(crate) fn new(alloc: Global, seed: u64) -> Draft
        ensures { result ≡ record { number = seed; events = []; refused = None } }
    {
        Draft {
            number: seed,
            events: Items::new(alloc),
            refused: None,
        }
    }

    /// One event more, unless one was refused.
    pub(crate) fn take(
        &mut self,
        alloc: Global,
        world: &mut World,
        event: Event,
    ) -> Result<(), NoMemory>
        ensures { OnOk result (IsAfter world.old world.new self.new (scripts.after_event world.old.object (setting_of world.old.plan) (seen world.old self.old) event)) }
    {
        if self.refused.is_some() {
            return Ok(());
        }
        self.step(alloc, world, event)
    }

    /// The event is taken, or refused.
    fn step(&mut self, alloc: Global, world: &mut World, event: Event) -> Result<(), NoMemory>
        requires { is_some self.old.refused ≡ false }
        ensures { OnOk result (IsAfter world.old world.new self.new (scripts.after_event world.old.object (setting_of world.old.plan) (seen world.old self.old) event)) }
    {
        match world.step(alloc, &event) {
            Ok(_) => self.events.push(event),
            Err(why) => self.refuse(why),
        }
    }

    /// The next event wasn't taken.
    fn refuse(&mut self, why: StepRefusal) -> Result<(), NoMemory>
        ensures refused { OnOk result (self.new ≡ record self.old { refused = Some why }) }
        ensures reason { OnOk result (is_memory why ≡ false) }
    {
        reason_of(why)?;
        self.refused = Some(why);
        Ok(())
    }

    /// One round more.
    pub(crate) fn round(&mut self, alloc: Global, world: &mut World) -> Result<(), NoMemory>
        requires { world.old.stopped ≡ false }
        ensures { OnOk result (IsAfter world.old world.new self.new (scripts.after_round world.old.object (setting_of world.old.plan) (seen world.old self.old))) }
    {
        let Draw { event, number } = round(world, self.number);
        self.number = number;
        match event {
            Some(event) => self.take(alloc, world, event),
            None => Ok(()),
        }
    }

    /// So many rounds more.
    pub(crate) fn play(
        &mut self,
        alloc: Global,
        world: &mut World,
        rounds: u32,
    ) -> Result<(), NoMemory>
        requires { world.old.stopped ≡ false }
        ensures { OnOk result (IsAfter world.old world.new self.new (scripts.rounds world.old.object (setting_of world.old.plan) rounds (seen world.old self.old))) }
    {
        for _round in 0..rounds {
            self.round(alloc, world)?;
        }
        Ok(())
    }
}
