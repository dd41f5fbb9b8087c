//! The calls of a replica's log.

ghost use Rattle.std.specs.Prelude.{◌≡◌, Some, IfOk};
ghost use Rattle.ham_plan.specs.Lists.{In};
ghost use Rattle.ham_replica.specs.Values.{words};
ghost use Rattle.ham_journal.specs.Cores.{call_had, recorded};

use ham_journal::Calls;
use ham_replica::Replica;
use ham_syntax::{Call, Items, NoMemory, Place};
use std::alloc::Global;

/// The call of a logged place, in memory of its own.
fn logged_call(replica: &Replica, place: &Place) -> Result<Call, NoMemory>
    requires { In place.now replica.now.lists.log }
    ensures { IfOk result (λ call. call_had (words replica.now.lists) place.now ≡ Some call) }
{
    match replica.call_at(place) {
        Some(call) => call.copy(),
        None => unreachable!(),
    }
}

/// The calls of a replica's log, in its order, in memory of their own.
pub(crate) fn logged_calls(alloc: Global, replica: &Replica) -> Result<Calls, NoMemory>
    ensures { IfOk result (λ calls. calls ≡ recorded (words replica.now.lists)) }
{
    let log = replica.log();
    let mut calls = Vec::with_capacity(alloc, log.len())?;
    for place in log {
        calls.push(logged_call(replica, place)?)?;
    }
    Ok(Items::from(calls))
}
