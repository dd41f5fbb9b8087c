//! Recorded logs.

ghost use Rattle.std.specs.Prelude.{◌≡◌, ◌+◌, ◌-◌, ◌^◌, ◌<◌, ◌≤◌, ◌++◌, [], ◌∷◌, length, OnOk, IfOk};

use ham_lists::{Items, NoMemory};
use ham_syntax::limits::MAX_REPLICAS;
use ham_syntax::{Act, Place};
use std::alloc::Global;
use std::marker::Model;

/// A call as a log has it: its place and its act.
#[derive(Clone, Copy, Debug, PartialEq, Eq)]
pub struct Logged {
    pub place: Place,
    pub act: Act,
}

/// The calls of a replica's log, in its order.
#[derive(Debug, Drop)]
pub struct Log {
    calls: Items<Logged>,
}

impl Model for Log {
    ghost use Rattle.std.specs.Prelude.{List, ◌-◌, ◌^◌, ◌<◌, length};
    ghost use Rattle.ham_records.specs.declared.records.Logged.{Logged};

    ghost Value = { List Logged };

    ghost view = { λ a. a.calls };

    ghost invariant = { λ a. length a.calls < 2 ^ 32 - 1 };
}

impl Log {
    /// The most calls of a log: their indexes, from 1, are numbers of 32 bits.
    const MOST: usize = 4_294_967_294;

    /// The log without a call.
    pub fn new(alloc: Global) -> Log
        ensures { result ≡ [] }
    {
        Log {
            calls: Items::new(alloc),
        }
    }

    /// The calls: fewer than 2^32 - 1.
    pub fn calls(&self) -> &[Logged]
        ensures calls { result.now ≡ self.now }
        ensures few { length self.now < 2 ^ 32 - 1 }
    {
        self.calls.items()
    }

    /// Puts a call last. There is memory for no more than 2^32 - 2 calls.
    pub fn push(&mut self, logged: Logged) -> Result<(), NoMemory>
        ensures { OnOk result (self.new ≡ self.old ++ logged ∷ []) }
    {
        if self.calls.items().len() >= Log::MOST {
            return Err(NoMemory);
        }
        self.calls.push(logged)
    }
}

/// The logs of the replicas, in the order of their numbers: 1 to 8.
#[derive(Debug, Drop)]
pub struct Records {
    logs: Items<Log>,
}

impl Model for Records {
    ghost use Rattle.std.specs.Prelude.{List, ◌≤◌, length};
    ghost use Rattle.ham_syntax.specs.declared.limits.TheConstants.{MAX_REPLICAS};
    ghost use Rattle.ham_records.specs.declared.records.Logged.{Logged};

    ghost Value = { List (List Logged) };

    ghost view = { λ a. a.logs };

    ghost invariant = { λ a. (1 ≤ length a.logs) × (length a.logs ≤ MAX_REPLICAS) };
}

impl Records {
    /// The records of these logs, the log of replica 1 first.
    pub fn new(logs: Items<Log>) -> Records
        requires some { 1 ≤ length logs }
        requires few { length logs ≤ MAX_REPLICAS }
        ensures { result ≡ logs }
    {
        Records { logs }
    }

    /// How many replicas there are.
    pub fn replicas(&self) -> u8
        ensures replicas { result ≡ length self.now }
        ensures some { 1 ≤ result }
        ensures few { result ≤ MAX_REPLICAS }
    {
        let logs = self.logs.items();
        logs.len() as u8
    }

    /// The logs, the one of replica 1 first.
    pub fn logs(&self) -> &[Log]
        ensures { result.now ≡ self.now }
    {
        self.logs.items()
    }
}
