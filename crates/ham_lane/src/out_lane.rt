//! A lane at the replica that decides it.

ghost use Rattle.std.specs.Prelude.{◌≡◌, ◌+◌, ◌<◌, ◌≤◌, [], ◌∷◌, ◌++◌, length, replicate, slice_index, IfOk, IfSome, OnOk};
ghost use Rattle.std.specs.Option.{option_copied};
ghost use Rattle.ham_lane.specs.Lanes.{numbered, Appends, Acknowledges};

use crate::number::call_numbered;
use ham_lists::NoMemory;
use ham_syntax::Call;
use ham_syntax::limits::MAX_LANE_CALLS;
use std::alloc::{AllocFailed, Global};
use std::marker::Model;
use thiserror::Error;

/// Why a lane doesn't take a call.
#[derive(Clone, Copy, Debug, PartialEq, Eq, Drop, Error)]
pub enum LaneFault {
    /// The lane has all the calls that it takes.
    #[error("a lane takes {max} calls")]
    Full { max: u32 },
    /// Memory ran out.
    #[error("out of memory")]
    NoMemory,
}

impl<T: Drop> From<AllocFailed<T>> for LaneFault {
    ghost use Rattle.std.specs.Prelude.{◌≡◌};
    ghost use Rattle.ham_lane.specs.declared.out_lane.LaneFault.TheVariants as faults;

    ghost from_gives = { λ _ e. e ≡ faults.NoMemory };

    fn from(_e: AllocFailed<T>) -> LaneFault {
        LaneFault::NoMemory
    }
}

/// More calls were acknowledged than the lane has.
#[derive(Clone, Copy, Debug, PartialEq, Eq, Drop, Error)]
#[error("the lane has {len} calls")]
pub struct AckBeyond {
    pub len: u32,
}

/// The calls of a lane that were decided here, and up to which number each peer acknowledged them.
#[derive(Drop)]
pub struct OutLane {
    calls: Vec<Call>,
    /// By replica; replicas count from 1, and the entry of 0 stays 0.
    acked: Vec<u32>,
}

impl Model for OutLane {
    ghost use Rattle.ham_lane.specs.Lanes.{OutLane, IsOutLane, shown_out};

    ghost Value = { OutLane };

    ghost view = { λ a. shown_out a.calls a.acked.items };

    ghost invariant = { λ a. IsOutLane a.calls.items a.acked.items };
}

impl OutLane {
    /// A lane without calls, in a plan of replicas 1 to `replicas`.
    pub fn new(alloc: Global, replicas: u8) -> Result<OutLane, NoMemory>
        ensures calls { IfOk result (λ lane. lane.calls ≡ []) }
        ensures acked { IfOk result (λ lane. lane.acked ≡ replicate (replicas + 1) 0) }
    {
        Ok(OutLane {
            calls: Vec::new(alloc),
            acked: Vec::from_elem(alloc, 0, replicas as usize + 1)?,
        })
    }

    /// How many calls there are.
    pub fn len(&self) -> u32
        ensures calls { result ≡ length self.now.calls }
        ensures few { result ≤ MAX_LANE_CALLS }
    {
        self.calls.len() as u32
    }

    /// The call of this number; none exactly where there is none.
    pub fn call(&self, number: u32) -> Option<&Call>
        ensures call { option_copied result ≡ numbered self.now.calls number }
        ensures number { IfSome (option_copied result) (λ call. call.number ≡ number) }
    {
        call_numbered(&self.calls, number)
    }

    /// Up to which number a peer acknowledged the calls: the greatest count that it told, 0 at first.
    pub fn acked(&self, peer: u8) -> u32
        requires { peer < length self.now.acked }
        ensures acked { result ≡ slice_index self.now.acked peer }
        ensures within { result ≤ length self.now.calls }
        ensures few { length self.now.calls ≤ MAX_LANE_CALLS }
    {
        self.acked[peer as usize]
    }

    /// Makes room for one call.
    pub fn reserve(&mut self) -> Result<(), NoMemory>
        ensures calls { self.new.calls ≡ self.old.calls }
        ensures acked { self.new.acked ≡ self.old.acked }
        ensures room { OnOk result (1 ≤ self.new.spare) }
    {
        self.calls.reserve(1)?;
        Ok(())
    }

    /// Puts the next call last, and gives its number. A call that is refused is dropped, and the calls stay.
    pub fn append(&mut self, call: Call) -> Result<u32, LaneFault>
        requires { length self.old.calls < MAX_LANE_CALLS → call.number ≡ length self.old.calls + 1 }
        ensures { Appends self.old self.new call result }
    {
        if self.calls.len() >= MAX_LANE_CALLS {
            return Err(LaneFault::Full {
                max: MAX_LANE_CALLS as u32,
            });
        }
        let number = call.number;
        self.calls.push(call)?;
        Ok(number)
    }

    /// Puts the next call last, for which there is room.
    pub fn append_reserved(&mut self, call: Call)
        requires room { 1 ≤ self.old.spare }
        requires few { length self.old.calls < MAX_LANE_CALLS }
        requires next { call.number ≡ length self.old.calls + 1 }
        ensures calls { self.new.calls ≡ self.old.calls ++ call ∷ [] }
        ensures acked { self.new.acked ≡ self.old.acked }
    {
        self.calls.push_reserved(call);
    }

    /// Notes that a peer has the calls up to this number. An older count, that came late, changes nothing.
    pub fn ack(&mut self, peer: u8, count: u32) -> Result<(), AckBeyond>
        requires { peer < length self.old.acked }
        ensures { Acknowledges self.old self.new peer count result }
    {
        let len = self.calls.len() as u32;
        if count > len {
            return Err(AckBeyond { len });
        }
        if count > self.acked[peer as usize] {
            self.acked[peer as usize] = count;
        }
        Ok(())
    }
}
