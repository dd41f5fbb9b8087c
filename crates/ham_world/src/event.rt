//! An event of a world, on its parts.

ghost use Rattle.std.specs.Prelude.{◌≡◌, None};
ghost use Rattle.ham_turns.specs.declared.event.Event.TheVariants as events;
ghost use Rattle.ham_world.specs.Worlds.{world_refusal};
ghost use Rattle.ham_world.specs.Stepping.{step_of};
ghost use Rattle.ham_world.specs.Parted.{setting_at, run_at, IsNoted, Agrees, LeavesBy};

use crate::parts::Parts;
use crate::refusal::StepRefusal;
use crate::refuse::refusal;
use crate::step::{frames, tear};
use crate::turn;
use ham_syntax::Act;
use ham_turns::{Cuts, Event, IssueRefusal};
use std::alloc::Global;

/// An issue that the replica refuses, as the world's refusal.
fn as_step(why: IssueRefusal) -> StepRefusal
    ensures { result ≡ step_of why }
{
    match why {
        IssueRefusal::NoMemory => StepRefusal::NoMemory,
        IssueRefusal::UnknownMethod => StepRefusal::Issue(why),
        IssueRefusal::BadArgs => StepRefusal::Issue(why),
        IssueRefusal::LaneFull => StepRefusal::Issue(why),
        IssueRefusal::RequestsFull => StepRefusal::Issue(why),
    }
}

fn issue(parts: &mut Parts, at: u64, act: &Act) -> Result<(), StepRefusal>
    requires allowed { world_refusal (setting_at parts.old) (run_at parts.old) (events.Issue at act.now) ≡ None }
    requires kept { IsNoted parts.old }
    requires keeps { Agrees parts.old }
    ensures object { parts.new.object ≡ parts.old.object }
    ensures plan { parts.new.plan ≡ parts.old.plan }
    ensures leaves { LeavesBy parts.old parts.new (events.Issue at act.now) result }
{
    match turn::issue(parts, at as u8, act) {
        Ok(()) => Ok(()),
        Err(why) => Err(as_step(why)),
    }
}

fn tick(parts: &mut Parts, at: u64) -> Result<(), StepRefusal>
    requires allowed { world_refusal (setting_at parts.old) (run_at parts.old) (events.Tick at) ≡ None }
    requires kept { IsNoted parts.old }
    requires keeps { Agrees parts.old }
    ensures object { parts.new.object ≡ parts.old.object }
    ensures plan { parts.new.plan ≡ parts.old.plan }
    ensures leaves { LeavesBy parts.old parts.new (events.Tick at) result }
{
    match turn::tick(parts, at as u8) {
        Ok(()) => Ok(()),
        Err(_) => Err(StepRefusal::NoMemory),
    }
}

fn deliver(
    alloc: Global,
    parts: &mut Parts,
    from: u64,
    to: u64,
    frame: u64,
) -> Result<(), StepRefusal>
    requires allowed { world_refusal (setting_at parts.old) (run_at parts.old) (events.Deliver from to frame) ≡ None }
    requires kept { IsNoted parts.old }
    requires keeps { Agrees parts.old }
    ensures object { parts.new.object ≡ parts.old.object }
    ensures plan { parts.new.plan ≡ parts.old.plan }
    ensures leaves { LeavesBy parts.old parts.new (events.Deliver from to frame) result }
{
    match frames(alloc, parts, from as u8, to as u8, frame, frame, &[]) {
        Ok(()) => Ok(()),
        Err(_) => Err(StepRefusal::NoMemory),
    }
}

fn pieces(
    alloc: Global,
    parts: &mut Parts,
    from: u64,
    to: u64,
    first: u64,
    last: u64,
    cuts: &Cuts,
) -> Result<(), StepRefusal>
    requires allowed { world_refusal (setting_at parts.old) (run_at parts.old) (events.Pieces from to first last cuts.now) ≡ None }
    requires kept { IsNoted parts.old }
    requires keeps { Agrees parts.old }
    ensures object { parts.new.object ≡ parts.old.object }
    ensures plan { parts.new.plan ≡ parts.old.plan }
    ensures leaves { LeavesBy parts.old parts.new (events.Pieces from to first last cuts.now) result }
{
    match frames(
        alloc,
        parts,
        from as u8,
        to as u8,
        first,
        last,
        cuts.items(),
    ) {
        Ok(()) => Ok(()),
        Err(_) => Err(StepRefusal::NoMemory),
    }
}

fn torn(
    alloc: Global,
    parts: &mut Parts,
    from: u64,
    to: u64,
    frame: u64,
    bytes: u64,
) -> Result<(), StepRefusal>
    requires allowed { world_refusal (setting_at parts.old) (run_at parts.old) (events.Torn from to frame bytes) ≡ None }
    requires kept { IsNoted parts.old }
    requires keeps { Agrees parts.old }
    ensures object { parts.new.object ≡ parts.old.object }
    ensures plan { parts.new.plan ≡ parts.old.plan }
    ensures leaves { LeavesBy parts.old parts.new (events.Torn from to frame bytes) result }
{
    match tear(alloc, parts, from as u8, to as u8, frame, bytes) {
        Ok(()) => Ok(()),
        Err(_) => Err(StepRefusal::NoMemory),
    }
}

/// An event that the world itself takes.
fn take(alloc: Global, parts: &mut Parts, event: &Event) -> Result<(), StepRefusal>
    requires allowed { world_refusal (setting_at parts.old) (run_at parts.old) event.now ≡ None }
    requires kept { IsNoted parts.old }
    requires keeps { Agrees parts.old }
    ensures object { parts.new.object ≡ parts.old.object }
    ensures plan { parts.new.plan ≡ parts.old.plan }
    ensures leaves { LeavesBy parts.old parts.new event.now result }
{
    match event {
        Event::Issue { replica, act } => issue(parts, *replica, act),
        Event::Deliver { from, to, frame } => deliver(alloc, parts, *from, *to, *frame),
        Event::Pieces {
            from,
            to,
            first,
            last,
            cuts,
        } => pieces(alloc, parts, *from, *to, *first, *last, cuts),
        Event::Torn {
            from,
            to,
            frame,
            bytes,
        } => torn(alloc, parts, *from, *to, *frame, *bytes),
        Event::Tick { replica } => tick(parts, *replica),
    }
}

/// The next event. A refused one leaves all parts in agreement with the same run.
pub(crate) fn step(alloc: Global, parts: &mut Parts, event: &Event) -> Result<(), StepRefusal>
    requires kept { IsNoted parts.old }
    requires keeps { Agrees parts.old }
    ensures object { parts.new.object ≡ parts.old.object }
    ensures plan { parts.new.plan ≡ parts.old.plan }
    ensures leaves { LeavesBy parts.old parts.new event.now result }
{
    match refusal(&parts.plan, &parts.links, parts.sent, event) {
        Some(why) => Err(why),
        None => take(alloc, parts, event),
    }
}
