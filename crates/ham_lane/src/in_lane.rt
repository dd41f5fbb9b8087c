//! A lane at a replica that doesn't decide it.

ghost use Rattle.std.specs.Prelude.{◌≡◌, ◌+◌, ◌<◌, ◌≤◌, [], ◌∷◌, ◌++◌, length, IfSome, OnOk};
ghost use Rattle.std.specs.Option.{option_copied};
ghost use Rattle.ham_lane.specs.Lanes.{numbered, Accepts};

use crate::number::call_numbered;
use ham_lists::NoMemory;
use ham_syntax::Call;
use ham_syntax::limits::MAX_LANE_CALLS;
use std::alloc::Global;
use std::marker::Model;

/// The calls of a lane that were logged here, in order.
#[derive(Drop)]
pub struct InLane {
    calls: Vec<Call>,
}

impl Model for InLane {
    ghost use Rattle.ham_lane.specs.Lanes.{InLane, IsNumbered, shown_in};

    ghost Value = { InLane };

    ghost view = { λ a. shown_in a.calls };

    ghost invariant = { λ a. IsNumbered a.calls.items };
}

impl InLane {
    /// A lane without calls. It takes no memory until it grows.
    pub fn new(alloc: Global) -> InLane
        ensures { result.calls ≡ [] }
    {
        InLane {
            calls: Vec::new(alloc),
        }
    }

    /// How many calls there are.
    pub fn len(&self) -> u32
        ensures calls { result ≡ length self.now.calls }
        ensures few { result ≤ MAX_LANE_CALLS }
    {
        self.calls.len() as u32
    }

    /// The call of this number; none exactly where there is none.
    pub fn call(&self, number: u32) -> Option<&Call>
        ensures call { option_copied result ≡ numbered self.now.calls number }
        ensures number { IfSome (option_copied result) (λ call. call.number ≡ number) }
    {
        call_numbered(&self.calls, number)
    }

    /// Makes room for one call.
    pub fn reserve(&mut self) -> Result<(), NoMemory>
        ensures calls { self.new.calls ≡ self.old.calls }
        ensures room { OnOk result (1 ≤ self.new.spare) }
    {
        self.calls.reserve(1)?;
        Ok(())
    }

    /// Puts the next call last. Where there is no memory the call is dropped, and the calls stay.
    pub fn accept(&mut self, call: Call) -> Result<(), NoMemory>
        requires few { length self.old.calls < MAX_LANE_CALLS }
        requires next { call.number ≡ length self.old.calls + 1 }
        ensures { Accepts self.old self.new call result }
    {
        self.calls.push(call)?;
        Ok(())
    }

    /// Puts the next call last, for which there is room.
    pub fn accept_reserved(&mut self, call: Call)
        requires room { 1 ≤ self.old.spare }
        requires few { length self.old.calls < MAX_LANE_CALLS }
        requires next { call.number ≡ length self.old.calls + 1 }
        ensures { self.new.calls ≡ self.old.calls ++ call ∷ [] }
    {
        self.calls.push_reserved(call);
    }
}
