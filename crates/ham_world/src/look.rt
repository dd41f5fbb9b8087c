//! What a world's parts show of their run.

ghost use Rattle.std.specs.Prelude.{◌≡◌, ◌-◌, length, slice_get, MatchOption, None, Some};
ghost use Rattle.ham_turns.specs.Settings.{IsReplica};
ghost use Rattle.ham_turns.specs.Words.{numbered};
ghost use Rattle.ham_plan.specs.Lists.{In};
ghost use Rattle.ham_runs.specs.Runs.{execution, log_of, on_link};
ghost use Rattle.ham_world.specs.Worlds as worlds;
ghost use Rattle.ham_world.specs.Parted.{setting_at, run_at, IsNoted, Agrees};

use crate::compare;
use crate::parts::Parts;
use crate::refuse::{is_sent, link_at};
use ham_replica::Replica;
use ham_resend::Asked;
use ham_runs::laws::{inputs_give_runs, plans_are_settings};
use ham_state::State;
use ham_syntax::{Act, Place};
use ham_turns::laws::plans_are_tabled;

/// How many frames were sent on a link.
pub(crate) fn sent(parts: &Parts, from: u8, to: u8) -> u64
    requires kept { IsNoted parts.now }
    requires keeps { Agrees parts.now }
    requires from { IsReplica (setting_at parts.now) from }
    requires to { IsReplica (setting_at parts.now) to }
    ensures { result ≡ length (on_link (run_at parts.now) from to) }
{
    link_at(&parts.links, from, to).len() as u64
}

/// The bytes of a frame of a link.
pub(crate) fn frame(parts: &Parts, from: u8, to: u8, frame: u64) -> Option<&[u8]>
    requires kept { IsNoted parts.now }
    requires keeps { Agrees parts.now }
    requires from { IsReplica (setting_at parts.now) from }
    requires to { IsReplica (setting_at parts.now) to }
    ensures { MatchOption result (numbered (on_link (run_at parts.now) from to) frame ≡ None)
        (λ bytes. worlds.bytes_of (numbered (on_link (run_at parts.now) from to) frame) ≡ Some bytes.now) }
{
    let link = link_at(&parts.links, from, to);
    if !is_sent(link, frame) {
        return None;
    }
    Some(link.span(frame as usize, frame as usize))
}

/// The replica of a number.
fn replica_at(parts: &Parts, replica: u8) -> &Replica
    requires keeps { Agrees parts.now }
    requires replica { IsReplica (setting_at parts.now) replica }
    ensures { slice_get parts.now.replicas.items (replica - 1) ≡ Some result.now }
{
    &parts.replicas[usize::from(replica) - 1]
}

/// The log of a replica.
pub(crate) fn log(parts: &Parts, replica: u8) -> &[Place]
    requires keeps { Agrees parts.now }
    requires replica { IsReplica (setting_at parts.now) replica }
    ensures { result.now ≡ log_of (run_at parts.now) replica }
{
    replica_at(parts, replica).log()
}

/// The act of a call that a replica logged.
pub(crate) fn act(parts: &Parts, replica: u8, place: &Place) -> Act
    requires kept { IsNoted parts.now }
    requires keeps { Agrees parts.now }
    requires replica { IsReplica (setting_at parts.now) replica }
    requires logged { In place.now (log_of (run_at parts.now) replica) }
    ensures { result ≡ (execution (run_at parts.now)).act place.now }
{
    plans_are_settings();
    inputs_give_runs();
    match replica_at(parts, replica).call_at(place) {
        Some(call) => call.act,
        None => unreachable!(),
    }
}

/// The state of a replica.
pub(crate) fn state(parts: &Parts, replica: u8) -> &State
    requires keeps { Agrees parts.now }
    requires replica { IsReplica (setting_at parts.now) replica }
    ensures state { result.now.content ≡ worlds.state_at parts.now.object (setting_at parts.now) (run_at parts.now) replica }
    ensures opened { result.now.invariants ≡ parts.now.object.invariants }
{
    replica_at(parts, replica).state()
}

/// What a replica knows of its request to a group. Of a group, or of a number, beyond its type there is none.
pub(crate) fn verdict(parts: &Parts, replica: u8, group: u64, number: u64) -> Asked
    requires kept { IsNoted parts.now }
    requires keeps { Agrees parts.now }
    requires replica { IsReplica (setting_at parts.now) replica }
    ensures { result ≡ worlds.asked_of (run_at parts.now) replica group number }
{
    plans_are_tabled();
    inputs_give_runs();
    if group > u64::from(u8::MAX) {
        return Asked::Unknown;
    }
    if number > u64::from(u32::MAX) {
        return Asked::Unknown;
    }
    replica_at(parts, replica).verdict(group as u8, number as u32)
}

/// Whether the logs of two replicas hold the same calls.
pub(crate) fn same_calls(parts: &Parts, one: u8, other: u8) -> bool
    requires keeps { Agrees parts.now }
    requires one { IsReplica (setting_at parts.now) one }
    requires other { IsReplica (setting_at parts.now) other }
    ensures { result ≡ worlds.same_calls (log_of (run_at parts.now) one) (log_of (run_at parts.now) other) }
{
    compare::same_calls(replica_at(parts, one), replica_at(parts, other))
}
