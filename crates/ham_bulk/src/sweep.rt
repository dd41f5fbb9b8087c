//! Sweeps: what is left on each link is delivered.

ghost use Rattle.std.specs.Prelude.{◌≡◌, ◌+◌, ◌-◌, ◌<◌, ◌≤◌, false, fold, length, OnOk};
ghost use Rattle.ham_turns.specs.Settings.{IsReplica, setting_of};
ghost use Rattle.ham_turns.specs.declared.event.Event.TheVariants as event_kinds;
ghost use Rattle.ham_bulk.specs.Scripts as scripts;
ghost use Rattle.ham_bulk.specs.Drafts.{seen, swept_so_far, IsAfter, IsSweptAfter};

use crate::draft::Draft;
use crate::reached::Reached;
use ham_lists::NoMemory;
use ham_turns::Event;
use ham_world::World;
use std::alloc::Global;

/// Two sweeps: the second goes on where the first stopped.
pub(crate) fn sweep_twice(
    alloc: Global,
    world: &mut World,
    draft: &mut Draft,
) -> Result<(), NoMemory>
    requires { world.old.stopped ≡ false }
    ensures { OnOk result (IsAfter world.old world.new draft.new (scripts.swept_twice world.old.object (setting_of world.old.plan) (seen world.old draft.old))) }
{
    let mut reached = Reached::new();
    sweep(alloc, world, draft, &mut reached)?;
    sweep(alloc, world, draft, &mut reached)
}

/// Sweeps all links, by their senders and then by their receivers.
fn sweep(
    alloc: Global,
    world: &mut World,
    draft: &mut Draft,
    reached: &mut Reached,
) -> Result<(), NoMemory>
    requires { world.old.stopped ≡ false }
    ensures { OnOk result (IsSweptAfter world.old world.new draft.new reached.new (scripts.swept world.old.object (setting_of world.old.plan) (swept_so_far world.old draft.old reached.old))) }
{
    for sender in 0..world.replicas() {
        sweep_from(alloc, world, draft, reached, sender + 1)?;
    }
    Ok(())
}

/// Sweeps the links from a replica.
fn sweep_from(
    alloc: Global,
    world: &mut World,
    draft: &mut Draft,
    reached: &mut Reached,
    from: u8,
) -> Result<(), NoMemory>
    requires going { world.old.stopped ≡ false }
    requires from { IsReplica (setting_of world.old.plan) from }
    ensures { OnOk result (IsSweptAfter world.old world.new draft.new reached.new (scripts.swept_from world.old.object (setting_of world.old.plan) (swept_so_far world.old draft.old reached.old) from)) }
{
    for receiver in 0..world.replicas() {
        sweep_to(alloc, world, draft, reached, from, receiver + 1)?;
    }
    Ok(())
}

/// Sweeps the link from a replica to another; there is none to itself.
fn sweep_to(
    alloc: Global,
    world: &mut World,
    draft: &mut Draft,
    reached: &mut Reached,
    from: u8,
    to: u8,
) -> Result<(), NoMemory>
    requires going { world.old.stopped ≡ false }
    requires from { IsReplica (setting_of world.old.plan) from }
    requires to { IsReplica (setting_of world.old.plan) to }
    ensures { OnOk result (IsSweptAfter world.old world.new draft.new reached.new (fold (scripts.link_swept world.old.object (setting_of world.old.plan)) (swept_so_far world.old draft.old reached.old) (scripts.link_if from to))) }
{
    if from == to {
        return Ok(());
    }
    sweep_link(alloc, world, draft, reached, from, to)
}

/// Delivers the frames of a link that were sent when it is reached, but those that were when it was reached last.
fn sweep_link(
    alloc: Global,
    world: &mut World,
    draft: &mut Draft,
    reached: &mut Reached,
    from: u8,
    to: u8,
) -> Result<(), NoMemory>
    requires going { world.old.stopped ≡ false }
    requires from { IsReplica (setting_of world.old.plan) from }
    requires to { IsReplica (setting_of world.old.plan) to }
    ensures { OnOk result (IsSweptAfter world.old world.new draft.new reached.new (scripts.link_swept world.old.object (setting_of world.old.plan) (swept_so_far world.old draft.old reached.old) (record { from = from; to = to }))) }
{
    let count = world.sent(from, to);
    let before = reach(world, reached, from, to, count);
    deliver(alloc, world, draft, from, to, before, count)
}

/// A link of the world is reached.
fn reach(world: &World, reached: &mut Reached, from: u8, to: u8, count: u64) -> u64
    requires from { IsReplica (setting_of world.now.plan) from }
    requires to { IsReplica (setting_of world.now.plan) to }
    ensures before { result ≡ scripts.reached_last reached.old (record { from = from; to = to }) }
    ensures after { reached.new ≡ scripts.reached_with reached.old (record { from = from; to = to }) count }
{
    let _planned = world.object();
    reached.reach(from, to, count)
}

/// Delivers the frames of a link after so many, up to so many.
fn deliver(
    alloc: Global,
    world: &mut World,
    draft: &mut Draft,
    from: u8,
    to: u8,
    first: u64,
    count: u64,
) -> Result<(), NoMemory>
    ensures { OnOk result (IsAfter world.old world.new draft.new (fold (scripts.after_event world.old.object (setting_of world.old.plan)) (seen world.old draft.old) (scripts.deliveries (record { from = from; to = to }) first count))) }
{
    for frame in first..count {
        draft.take(alloc, world, delivery(from, to, frame + 1))?;
    }
    Ok(())
}

fn delivery(from: u8, to: u8, frame: u64) -> Event
    ensures { result ≡ event_kinds.Deliver from to frame }
{
    Event::Deliver {
        from: u64::from(from),
        to: u64::from(to),
        frame,
    }
}
