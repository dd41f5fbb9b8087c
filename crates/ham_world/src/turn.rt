//! One turn of a replica.

ghost use Rattle.std.specs.Prelude.{◌≡◌, ◌≢◌, ◌⊎◌, ◌≤◌, ◌^◌, IfErr, OnOk, OnErr, None, Some};
ghost use Rattle.ham_frame.specs.declared.frame.Frame.{Frame};
ghost use Rattle.ham_turns.specs.declared.turn.IssueRefusal.TheVariants as issue_refusals;
ghost use Rattle.ham_turns.specs.declared.turn.DeliverRefusal.TheVariants as deliver_refusals;
ghost use Rattle.ham_turns.specs.Settings.{rules_of, IsReplica};
ghost use Rattle.ham_turns.specs.Words.{ActComes, FrameComes, PartComes, Beat, numbered};
ghost use Rattle.ham_turns.specs.Refusals.{issue_refusal};
ghost use Rattle.ham_runs.specs.Runs.{on_link};
ghost use Rattle.ham_world.specs.Parted.{setting_at, run_at, words_at, IsNoted, Agrees, GoesOn, SendsFew};

use crate::ask;
use crate::note::Took;
use crate::parts::{Parts, keep};
use ham_frame::Frame;
use ham_lists::{Items, NoMemory};
use ham_runs::laws::{inputs_give_runs, runs_go_on, turns_refine};
use ham_site::Outs;
use ham_syntax::Act;
use ham_turns::{DeliverRefusal, IssueRefusal, What};
use std::alloc::Global;

/// A client's act at a replica.
pub(crate) fn issue(parts: &mut Parts, at: u8, act: &Act) -> Result<(), IssueRefusal>
    requires replica { IsReplica (setting_at parts.old) at }
    requires kept { IsNoted parts.old }
    requires keeps { Agrees parts.old }
    requires sent { parts.old.sent ≤ 2 ^ 40 }
    ensures object { parts.new.object ≡ parts.old.object }
    ensures plan { parts.new.plan ≡ parts.old.plan }
    ensures goes { OnOk result (GoesOn parts.old parts.new at (ActComes act.now)) }
    ensures taken { OnOk result (issue_refusal (rules_of parts.old.object) (setting_at parts.old)
        (words_at parts.old at) at act.now ≡ None) }
    ensures sent { OnOk result (SendsFew parts.old parts.new) }
    ensures notes { OnErr result (parts.new.notes.items ≡ parts.old.notes.items) }
    ensures refused { IfErr result (λ why. (why ≡ issue_refusals.NoMemory) ⊎ (Agrees parts.new
        × (issue_refusal (rules_of parts.old.object) (setting_at parts.old) (words_at parts.old at) at act.now ≡ Some why))) }
{
    turns_refine();
    inputs_give_runs();
    let turn = match ask::issue(&mut parts.replicas, at, act) {
        Ok(turn) => turn,
        Err(why) => return Err(why),
    };
    if !turn.settled {
        return Err(IssueRefusal::NoMemory);
    }
    match keep(
        parts,
        at,
        Took::Act(*act),
        What::Issued(turn.answer),
        turn.logged,
        &turn.out,
    ) {
        Ok(()) => Ok(()),
        Err(_) => Err(IssueRefusal::NoMemory),
    }
}

/// A tick of a replica.
pub(crate) fn tick(parts: &mut Parts, at: u8) -> Result<(), NoMemory>
    requires replica { IsReplica (setting_at parts.old) at }
    requires kept { IsNoted parts.old }
    requires keeps { Agrees parts.old }
    requires sent { parts.old.sent ≤ 2 ^ 40 }
    ensures object { parts.new.object ≡ parts.old.object }
    ensures plan { parts.new.plan ≡ parts.old.plan }
    ensures goes { OnOk result (GoesOn parts.old parts.new at Beat) }
    ensures sent { OnOk result (SendsFew parts.old parts.new) }
    ensures notes { OnErr result (parts.new.notes.items ≡ parts.old.notes.items) }
{
    turns_refine();
    inputs_give_runs();
    let turn = match ask::tick(&mut parts.replicas, at) {
        Ok(turn) => turn,
        Err(why) => return Err(why),
    };
    if !turn.settled {
        return Err(NoMemory);
    }
    match keep(parts, at, Took::Tick, What::Ticked, turn.logged, &turn.out) {
        Ok(()) => Ok(()),
        Err(why) => Err(why),
    }
}

/// The `which`-th frame of a link at its replica.
pub(crate) fn deliver(
    parts: &mut Parts,
    at: u8,
    from: u8,
    which: u32,
    frame: &Frame,
) -> Result<(), NoMemory>
    requires replica { IsReplica (setting_at parts.old) at }
    requires from { IsReplica (setting_at parts.old) from }
    requires other { from ≢ at }
    requires there { numbered (on_link (run_at parts.old) from at) which ≡ Some frame.now }
    requires kept { IsNoted parts.old }
    requires keeps { Agrees parts.old }
    requires sent { parts.old.sent ≤ 2 ^ 40 }
    ensures object { parts.new.object ≡ parts.old.object }
    ensures plan { parts.new.plan ≡ parts.old.plan }
    ensures goes { OnOk result (GoesOn parts.old parts.new at (FrameComes from which frame.now)) }
    ensures sent { OnOk result (SendsFew parts.old parts.new) }
    ensures notes { OnErr result (parts.new.notes.items ≡ parts.old.notes.items) }
{
    turns_refine();
    inputs_give_runs();
    runs_go_on();
    let turn = match ask::deliver(&mut parts.replicas, at, from, frame) {
        Ok(turn) => turn,
        Err(why) => return Err(only_memory(why)),
    };
    if !turn.settled {
        return Err(NoMemory);
    }
    let took = Took::Frame { from, frame: which };
    match keep(
        parts,
        at,
        took,
        What::Delivered(turn.answer),
        turn.logged,
        &turn.out,
    ) {
        Ok(()) => Ok(()),
        Err(why) => Err(why),
    }
}

/// A part of the `which`-th frame of a link at its replica, which does nothing.
pub(crate) fn torn(
    alloc: Global,
    parts: &mut Parts,
    at: u8,
    from: u8,
    which: u32,
) -> Result<(), NoMemory>
    requires replica { IsReplica (setting_at parts.old) at }
    requires there { (frame : Frame) × (numbered (on_link (run_at parts.old) from at) which ≡ Some frame) }
    requires kept { IsNoted parts.old }
    requires keeps { Agrees parts.old }
    requires sent { parts.old.sent ≤ 2 ^ 40 }
    ensures object { parts.new.object ≡ parts.old.object }
    ensures plan { parts.new.plan ≡ parts.old.plan }
    ensures goes { OnOk result ((f : Frame) → numbered (on_link (run_at parts.old) from at) which ≡ Some f
        → GoesOn parts.old parts.new at (PartComes from which f)) }
    ensures sent { OnOk result (SendsFew parts.old parts.new) }
    ensures notes { OnErr result (parts.new.notes.items ≡ parts.old.notes.items) }
{
    turns_refine();
    inputs_give_runs();
    let took = Took::Frame { from, frame: which };
    let outs = Outs::none(alloc);
    match keep(parts, at, took, What::Torn, Items::new(alloc), &outs) {
        Ok(()) => Ok(()),
        Err(why) => Err(why),
    }
}

/// No delivery of a frame that was sent is refused otherwise.
fn only_memory(why: DeliverRefusal) -> NoMemory
    requires { why ≡ deliver_refusals.NoMemory }
{
    match why {
        DeliverRefusal::NoMemory => NoMemory,
        _ => unreachable!(),
    }
}
