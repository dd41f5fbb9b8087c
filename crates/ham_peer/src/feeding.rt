//! Feeding a peer.

ghost use Rattle.std.specs.Prelude.{◌≡◌, ◌≤◌, ◌⊎◌, IfOk, IfErr};
ghost use Rattle.ham_bytes.specs.Causes.{Rose};
ghost use Rattle.ham_frame.specs.Spelling.{Fits, AllFit, stream, spelling};
ghost use Rattle.ham_links.specs.Links.{Goes, GoesSome};
ghost use Rattle.ham_peer.specs.Delivering.{IsGreeting};
ghost use Rattle.ham_peer.specs.Collecting.{FeedRound, FeedHalt, FedPeer, FeedEndsBy};
ghost use Rattle.ham_peer.specs.declared.feeding.FeedEnd.TheVariants as ends;

use crate::greeting::{Greeting, hello};
use ham_core::{Door, Input, Reply};
use ham_frame::{Frame, Frames, encode};
use ham_links::{Clock, Link, put_whole};
use std::alloc::Global;
use std::sync::Wait;

/// How feeding a peer ended.
#[derive(Clone, Copy, Debug, PartialEq, Eq)]
pub enum FeedEnd {
    /// The link failed.
    LinkFault,
    /// The node was stopped.
    Stopped,
    /// The node's journal is full.
    Full,
    /// Memory ran out.
    NoMemory,
}

/// Sends a frame.
fn send<K: Link>(alloc: Global, link: &mut K, frame: &Frame) -> Result<(), FeedEnd>
    requires { Fits frame.now }
    ensures sent { IfOk result (λ u. Goes (K.sent link.old) (K.sent link.new) (spelling frame.now)) }
    ensures front { IfErr result (λ e. GoesSome (K.sent link.old) (K.sent link.new) (spelling frame.now)) }
    ensures cause { IfErr result (λ e. (e ≡ ends.NoMemory) ⊎ ((e ≡ ends.LinkFault) × Rose (K.faults link.old) (K.faults link.new))) }
    ensures later { K.faults link.old ≤ K.faults link.new }
{
    let Ok(bytes) = encode(alloc, frame) else {
        return Err(FeedEnd::NoMemory);
    };
    match put_whole(link, bytes.items()) {
        Ok(()) => Ok(()),
        Err(_) => Err(FeedEnd::LinkFault),
    }
}

/// Sends frames in order.
fn send_all<K: Link>(alloc: Global, link: &mut K, frames: &Frames) -> Result<(), FeedEnd>
    requires { AllFit frames.now }
    ensures sent { IfOk result (λ u. Goes (K.sent link.old) (K.sent link.new) (stream frames.now)) }
    ensures front { IfErr result (λ e. GoesSome (K.sent link.old) (K.sent link.new) (stream frames.now)) }
    ensures cause { IfErr result (λ e. (e ≡ ends.NoMemory) ⊎ ((e ≡ ends.LinkFault) × Rose (K.faults link.old) (K.faults link.new))) }
    ensures later { K.faults link.old ≤ K.faults link.new }
{
    let all = frames.items();
    for frame in all {
        match send(alloc, link, frame) {
            Ok(()) => {}
            Err(end) => return Err(end),
        }
    }
    Ok(())
}

/// Collects once, and sends what that gave. Whether it was nothing.
fn feed_round<D: Door, K: Link>(
    alloc: Global,
    door: &mut D,
    link: &mut K,
    peer: u8,
) -> Result<bool, FeedEnd>
    ensures on { IfOk result (λ none. FeedRound (D.object door.old) (D.plan door.old) (D.me door.old) peer (D.history door.old) (D.history door.new) (K.sent link.old) (K.sent link.new)) }
    ensures off { IfErr result (λ e. FeedHalt e (D.object door.old) (D.plan door.old) (D.me door.old) peer (D.history door.old) (D.history door.new) (K.sent link.old) (K.sent link.new)) }
    ensures causes { IfErr result (λ e. FeedEndsBy e (K.faults link.old) (K.faults link.new) (D.stops door.old) (D.stops door.new) (D.fulls door.old) (D.fulls door.new)) }
    ensures later { K.faults link.old ≤ K.faults link.new }
    ensures stops { D.stops door.old ≤ D.stops door.new }
    ensures fulls { D.fulls door.old ≤ D.fulls door.new }
    ensures object { D.object door.new ≡ D.object door.old }
    ensures plan { D.plan door.new ≡ D.plan door.old }
    ensures me { D.me door.new ≡ D.me door.old }
{
    match door.enter(Input::Collect { peer }) {
        Reply::Collected(frames) => {
            let none = frames.items().is_empty();
            match send_all(alloc, link, &frames) {
                Ok(()) => Ok(none),
                Err(end) => Err(end),
            }
        }
        Reply::Stopped => match send(alloc, link, &Frame::Bye) {
            Ok(()) => Err(FeedEnd::Stopped),
            Err(end) => Err(end),
        },
        Reply::Full => Err(FeedEnd::Full),
        _ => Err(FeedEnd::NoMemory),
    }
}

/// Feeds a peer to its end: the greeting, and then the frames that wait for the peer, with a pause where none does; a farewell
/// once the node was stopped.
pub fn feed_peer<R: Wait, D: Door, K: Link, C: Clock>(
    rt: &R,
    alloc: Global,
    door: &mut D,
    link: &mut K,
    clock: &mut C,
    greeting: &Greeting,
    peer: u8,
) -> FeedEnd
    requires { IsGreeting greeting.now }
    ensures fed { FedPeer result (D.object door.old) (D.plan door.old) (D.me door.old) peer greeting.now (D.history door.old) (D.history door.new) (K.sent link.old) (K.sent link.new) }
    ensures causes { FeedEndsBy result (K.faults link.old) (K.faults link.new) (D.stops door.old) (D.stops door.new) (D.fulls door.old) (D.fulls door.new) }
    ensures object { D.object door.new ≡ D.object door.old }
    ensures plan { D.plan door.new ≡ D.plan door.old }
    ensures me { D.me door.new ≡ D.me door.old }
{
    let first = hello(&greeting.digest, greeting.from, greeting.of);
    match send(alloc, link, &first) {
        Ok(()) => {}
        Err(end) => return end,
    }
    for _ in rt.forever() {
        match feed_round(alloc, door, link, peer) {
            Ok(none) => {
                if none {
                    clock.pause();
                }
            }
            Err(end) => return end,
        }
    }
    unreachable!()
}
