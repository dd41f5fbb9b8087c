//! A tick: what peers lack is sent again.

ghost use Rattle.std.specs.Prelude.{◌≡◌, ◌<◌, ◌++◌, OnOk, IfOk};
ghost use Rattle.std.specs.List.{flat_map};
ghost use Rattle.ham_turns.specs.Settings.{IsReplica};
ghost use Rattle.ham_turns.specs.Ready.{IsSettled};
ghost use Rattle.ham_turns.specs.Sends as sends;
ghost use Rattle.ham_site.specs.Sites.{setting_at};
ghost use Rattle.ham_replica.specs.Values.{words};
ghost use Rattle.ham_replica.specs.Kept.{IsKept};
ghost use Rattle.ham_replica.specs.Shown.{lists_of};
ghost use Rattle.ham_replica.specs.Ticks.{addressed, due_to_peer, all_due, if_decided, IsTicked};

use crate::held::Held;
use ham_frame::Frame;
use ham_lists::NoMemory;
use ham_resend::due_calls;
use ham_site::{Outs, Site, Turn};
use ham_syntax::Items;
use ham_turns::Out;
use std::alloc::Global;

/// Sends again what peers lack.
pub(crate) fn tick_in(site: &Site, held: &Held) -> Result<Turn<()>, NoMemory>
    requires kept { IsKept site.now (lists_of held.now) }
    requires settled { IsSettled (setting_at site.now) (words (lists_of held.now)) }
    ensures { IfOk result (λ t. IsTicked site.now (lists_of held.now) t) }
{
    let alloc = *held.log.allocator();
    let out = due_frames(alloc, site, held)?;
    Ok(Turn {
        answer: (),
        logged: Items::new(alloc),
        out: Outs::of_frames(out),
        settled: true,
    })
}

/// What is due to each peer.
fn due_frames(alloc: Global, site: &Site, held: &Held) -> Result<Vec<Out>, NoMemory>
    requires { IsKept site.now (lists_of held.now) }
    ensures { IfOk result (λ out. out.items ≡ all_due (setting_at site.now) (words (lists_of held.now)) site.now.me) }
{
    let mut out = Vec::new(alloc);
    for before in 0..site.replicas() {
        push_peer(site, held, before + 1, &mut out)?;
    }
    Ok(out)
}

/// What is due to a peer; to the replica itself nothing.
fn push_peer(site: &Site, held: &Held, peer: u8, out: &mut Vec<Out>) -> Result<(), NoMemory>
    requires kept { IsKept site.now (lists_of held.now) }
    requires peer { IsReplica (setting_at site.now) peer }
    ensures { OnOk result (out.new.items ≡ out.old.items ++ due_to_peer (setting_at site.now) (words (lists_of held.now)) site.now.me peer) }
{
    if peer == site.me() {
        return Ok(());
    }
    push_calls(site, held, peer, out)?;
    push_requests(site, held, peer, out)
}

/// The lowest calls of each lane that a peer didn't acknowledge.
fn push_calls(site: &Site, held: &Held, peer: u8, out: &mut Vec<Out>) -> Result<(), NoMemory>
    requires kept { IsKept site.now (lists_of held.now) }
    requires peer { IsReplica (setting_at site.now) peer }
    ensures { OnOk result (out.new.items ≡ out.old.items ++ addressed peer (flat_map (sends.due_calls (words (lists_of held.now)) peer) (sends.decided_by (setting_at site.now) site.now.me (setting_at site.now).lanes))) }
{
    for lane in 0..site.lanes() {
        push_lane(site, held, peer, lane as u8, out)?;
    }
    Ok(())
}

/// The lowest calls of a lane that a peer didn't acknowledge, if the lane is decided here.
fn push_lane(
    site: &Site,
    held: &Held,
    peer: u8,
    lane: u8,
    out: &mut Vec<Out>,
) -> Result<(), NoMemory>
    requires kept { IsKept site.now (lists_of held.now) }
    requires peer { IsReplica (setting_at site.now) peer }
    requires lane { lane < (setting_at site.now).lanes }
    ensures { OnOk result (out.new.items ≡ out.old.items ++ addressed peer (flat_map (sends.due_calls (words (lists_of held.now)) peer) (if_decided (setting_at site.now) site.now.me lane))) }
{
    if site.decider_of(lane) != site.me() {
        return Ok(());
    }
    let alloc = *held.log.allocator();
    push_all(
        out,
        peer,
        due_calls(alloc, &held.outs[lane as usize], peer)?,
    )
}

/// The lowest requests without a verdict of each group that a peer leads.
fn push_requests(site: &Site, held: &Held, peer: u8, out: &mut Vec<Out>) -> Result<(), NoMemory>
    requires { IsKept site.now (lists_of held.now) }
    ensures { OnOk result (out.new.items ≡ out.old.items ++ addressed peer (flat_map (sends.due_requests (words (lists_of held.now))) (sends.decided_by (setting_at site.now) peer (setting_at site.now).groups))) }
{
    for group in 0..site.groups() {
        push_group(site, held, peer, group, out)?;
    }
    Ok(())
}

/// The lowest requests without a verdict of a group, if the peer leads it.
fn push_group(
    site: &Site,
    held: &Held,
    peer: u8,
    group: u8,
    out: &mut Vec<Out>,
) -> Result<(), NoMemory>
    requires kept { IsKept site.now (lists_of held.now) }
    requires group { group < (setting_at site.now).groups }
    ensures { OnOk result (out.new.items ≡ out.old.items ++ addressed peer (flat_map (sends.due_requests (words (lists_of held.now))) (if_decided (setting_at site.now) peer group))) }
{
    if site.decider_of(group) != peer {
        return Ok(());
    }
    push_all(out, peer, held.asks.due(group)?)
}

/// Puts frames to a peer last.
fn push_all(out: &mut Vec<Out>, to: u8, frames: Vec<Frame>) -> Result<(), NoMemory>
    ensures { OnOk result (out.new.items ≡ out.old.items ++ addressed to frames.items) }
{
    for frame in frames {
        out.push(Out { to, frame })?;
    }
    Ok(())
}
