//! What workers do with the links of their ports.

ghost use Rattle.std.specs.Prelude.{◌≡◌, ◌≢◌, IsTrue};
ghost use Rattle.ham_bytes.specs.Causes.{Rose};
ghost use Rattle.ham_turns.specs.Settings.{setting_of, IsReplica};
ghost use Rattle.ham_peer.specs.Delivering.{IsGreeting};

use crate::others::Peer;
use ham_core::{Door, Home};
use ham_links::{Clock, Link, PortFault};
use ham_peer::{FeedEnd, Greeting, PeerEnd, feed_peer, serve_peer};
use ham_serve::{ClientEnd, serve_client};
use ham_syntax::Object;
use std::alloc::Global;
use std::sync::Wait;

/// What to do with each link of a port.
#[derive(Drop)]
pub enum Duty<L: Home> {
    /// Serve the client.
    Serve,
    /// Take in what the peer sends.
    Read(Peer<L>),
    /// Feed the peer.
    Feed(Peer<L>),
}

impl<L: Home> Duty<L> {
    /// The peer; 0 for a client.
    pub(crate) fn peer(&self) -> u8 {
        match self {
            Duty::Serve => 0,
            Duty::Read(peer) => peer.number,
            Duty::Feed(peer) => peer.number,
        }
    }
}

/// Serves the client of a link. Whether the node was stopped.
fn serve<R: Wait, D: Door, K: Link>(
    rt: &R,
    alloc: Global,
    object: &Object,
    door: &mut D,
    link: &mut K,
) -> bool
    requires home { D.object door.old ≡ object.now }
    ensures stopped { IsTrue result → Rose (D.stops door.old) (D.stops door.new) }
{
    match serve_client(rt, alloc, object, door, link) {
        ClientEnd::Stopped => true,
        _ => false,
    }
}

/// Takes in what a peer sends on a link. Whether the node was stopped.
fn read<R: Wait, D: Door, K: Link>(
    rt: &R,
    alloc: Global,
    door: &mut D,
    link: &mut K,
    greeting: &Greeting,
) -> bool
    requires replica { IsReplica (setting_of (D.plan door.old)) greeting.now.from }
    requires another { greeting.now.from ≢ D.me door.old }
    ensures stopped { IsTrue result → Rose (D.stops door.old) (D.stops door.new) }
{
    match serve_peer(rt, alloc, door, link, greeting) {
        PeerEnd::Stopped => true,
        _ => false,
    }
}

/// Feeds a peer on a link. Whether the node was stopped.
fn feed<R: Wait, D: Door, K: Link, W: Clock>(
    rt: &R,
    alloc: Global,
    door: &mut D,
    link: &mut K,
    bell: &mut W,
    greeting: &Greeting,
    peer: u8,
) -> bool
    requires { IsGreeting greeting.now }
    ensures stopped { IsTrue result → Rose (D.stops door.old) (D.stops door.new) }
{
    match feed_peer(rt, alloc, door, link, bell, greeting, peer) {
        FeedEnd::Stopped => true,
        _ => false,
    }
}

/// Does the duty on a link to its end. The greeting is the node's own; the bell tells when a frame waits for the peer.
/// Whether the node was stopped.
fn tend<R: Wait, L: Home, D: Door, K: Link, W: Clock>(
    rt: &R,
    alloc: Global,
    object: &Object,
    duty: &Duty<L>,
    greeting: &Greeting,
    door: &mut D,
    link: &mut K,
    bell: &mut W,
) -> bool
    requires home { D.object door.old ≡ object.now }
    requires plan { D.plan door.old ≡ L.plan }
    requires me { D.me door.old ≡ L.me }
    requires greets { IsGreeting greeting.now }
    ensures stopped { IsTrue result → Rose (D.stops door.old) (D.stops door.new) }
{
    match duty {
        Duty::Serve => serve(rt, alloc, object, door, link),
        Duty::Read(peer) => {
            let awaited = Greeting {
                digest: greeting.digest,
                from: peer.number,
                of: greeting.of,
            };
            read(rt, alloc, door, link, &awaited)
        }
        Duty::Feed(peer) => feed(rt, alloc, door, link, bell, greeting, peer.number),
    }
}

/// Does the duty on the link that a port gave, where it gave one; before a peer is dialled again the clock pauses. Whether the
/// node was stopped.
pub fn tend_opened<R: Wait, L: Home, D: Door, K: Link + Drop, W: Clock, C: Clock>(
    rt: &R,
    alloc: Global,
    object: &Object,
    duty: &Duty<L>,
    greeting: &Greeting,
    door: &mut D,
    opened: Result<Option<K>, PortFault>,
    bell: &mut W,
    clock: &mut C,
) -> bool
    requires home { D.object door.old ≡ object.now }
    requires plan { D.plan door.old ≡ L.plan }
    requires me { D.me door.old ≡ L.me }
    requires greets { IsGreeting greeting.now }
    ensures stopped { IsTrue result → Rose (D.stops door.old) (D.stops door.new) }
{
    if let Ok(Some(mut link)) = opened {
        if tend(rt, alloc, object, duty, greeting, door, &mut link, bell) {
            return true;
        }
    }
    if let Duty::Feed(_) = duty {
        clock.pause();
    }
    false
}
