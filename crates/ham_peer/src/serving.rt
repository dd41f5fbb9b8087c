//! Serving a peer.

ghost use Rattle.std.specs.Prelude.{◌≡◌, ◌≢◌, ◌+◌, ◌≤◌, ◌<◌, ◌^◌, ◌↔◌, IsTrue, None, List, Option, [], length, IfOk, IfErr, ℕ};
ghost use Rattle.ham_turns.specs.Settings.{setting_of, IsReplica};
ghost use Rattle.ham_frame.specs.Spelling.{IsUnfinished};
ghost use Rattle.ham_peer.specs.Delivering.{end_by, Feeds, GoesOn, EndsIn, Peered, PeerEndsBy, PeerRound, PeerHalt};

use crate::greeting::Greeting;
use crate::meeting::{PeerEnd, meet_all};
use ham_core::Door;
use ham_frame::{Decoder, FrameFault, Frames};
use ham_links::{Got, Link};
use ham_syntax::Items;
use std::alloc::Global;
use std::sync::Wait;

/// The most bytes of a read.
const MAX_PIECE: usize = 4_096;

/// After so many bytes a link ends as by a farewell.
const MAX_CARRIED: u64 = 1 << 40;

/// The end that a decoder's fault is.
fn end_of(fault: FrameFault) -> PeerEnd
    ensures { result ≡ end_by fault }
{
    match fault {
        FrameFault::Bad { at, why } => PeerEnd::Bad { at, why },
        FrameFault::NoMemory => PeerEnd::NoMemory,
    }
}

/// Feeds the decoder a piece.
fn feed(decoder: &mut Decoder, piece: &[u8], into: &mut Frames) -> Result<(), FrameFault>
    requires working { decoder.old.fault ≡ None }
    requires room { decoder.old.total + length piece.now ≤ 2 ^ 62 }
    ensures feeds { Feeds result decoder.old decoder.new into.old into.new piece.now }
    ensures unfinished { IsUnfinished decoder.new.rest }
{
    decoder.feed(piece, into)
}

/// Whether the stream ends within a frame.
fn is_torn(decoder: &Decoder) -> bool
    requires { decoder.now.fault ≡ None }
    ensures { IsTrue result ↔ (decoder.now.rest ≢ []) }
{
    decoder.finish().is_err()
}

/// Meets the frames that a piece makes whole, which are put into an empty list.
fn take_into<D: Door>(
    door: &mut D,
    decoder: &mut Decoder,
    greeting: &Greeting,
    greeted: bool,
    piece: &[u8],
    frames: &mut Frames,
) -> Result<bool, PeerEnd>
    requires none { frames.old ≡ [] }
    requires replica { IsReplica (setting_of (D.plan door.old)) greeting.now.from }
    requires another { greeting.now.from ≢ D.me door.old }
    requires working { decoder.old.fault ≡ None }
    requires room { decoder.old.total + length piece.now ≤ 2 ^ 62 }
    ensures on { IfOk result (λ now. GoesOn (D.object door.old) (D.plan door.old) (D.me door.old) greeting.now (D.history door.old) (D.history door.new) greeted now decoder.old decoder.new piece.now) }
    ensures off { IfErr result (λ e. (left : Option (List ℕ)) → EndsIn e (D.object door.old) (D.plan door.old) (D.me door.old) greeting.now (D.history door.old) (D.history door.new) left greeted decoder.old piece.now) }
    ensures causes { (faults : ℕ) (faults2 : ℕ) (ends : ℕ) (ends2 : ℕ) → IfErr result (λ e. PeerEndsBy e faults faults2 ends ends2 (D.stops door.old) (D.stops door.new) (D.fulls door.old) (D.fulls door.new) (D.refusals door.old) (D.refusals door.new)) }
    ensures stops { D.stops door.old ≤ D.stops door.new }
    ensures fulls { D.fulls door.old ≤ D.fulls door.new }
    ensures refusals { D.refusals door.old ≤ D.refusals door.new }
    ensures object { D.object door.new ≡ D.object door.old }
    ensures plan { D.plan door.new ≡ D.plan door.old }
    ensures me { D.me door.new ≡ D.me door.old }
{
    let fed = feed(decoder, piece, frames);
    let now = match meet_all(door, greeting, greeted, frames) {
        Ok(now) => now,
        Err(end) => return Err(end),
    };
    match fed {
        Ok(()) => Ok(now),
        Err(fault) => Err(end_of(fault)),
    }
}

/// Meets the frames that a piece makes whole.
fn take_piece<D: Door>(
    alloc: Global,
    door: &mut D,
    decoder: &mut Decoder,
    greeting: &Greeting,
    greeted: bool,
    piece: &[u8],
) -> Result<bool, PeerEnd>
    requires replica { IsReplica (setting_of (D.plan door.old)) greeting.now.from }
    requires another { greeting.now.from ≢ D.me door.old }
    requires working { decoder.old.fault ≡ None }
    requires room { decoder.old.total + length piece.now ≤ 2 ^ 62 }
    ensures on { IfOk result (λ now. GoesOn (D.object door.old) (D.plan door.old) (D.me door.old) greeting.now (D.history door.old) (D.history door.new) greeted now decoder.old decoder.new piece.now) }
    ensures off { IfErr result (λ e. (left : Option (List ℕ)) → EndsIn e (D.object door.old) (D.plan door.old) (D.me door.old) greeting.now (D.history door.old) (D.history door.new) left greeted decoder.old piece.now) }
    ensures causes { (faults : ℕ) (faults2 : ℕ) (ends : ℕ) (ends2 : ℕ) → IfErr result (λ e. PeerEndsBy e faults faults2 ends ends2 (D.stops door.old) (D.stops door.new) (D.fulls door.old) (D.fulls door.new) (D.refusals door.old) (D.refusals door.new)) }
    ensures stops { D.stops door.old ≤ D.stops door.new }
    ensures fulls { D.fulls door.old ≤ D.fulls door.new }
    ensures refusals { D.refusals door.old ≤ D.refusals door.new }
    ensures object { D.object door.new ≡ D.object door.old }
    ensures plan { D.plan door.new ≡ D.plan door.old }
    ensures me { D.me door.new ≡ D.me door.old }
{
    let mut frames = Items::new(alloc);
    take_into(door, decoder, greeting, greeted, piece, &mut frames)
}

/// Meets the frames that the next bytes make whole.
fn peer_round<D: Door, K: Link>(
    alloc: Global,
    door: &mut D,
    link: &mut K,
    decoder: &mut Decoder,
    greeting: &Greeting,
    greeted: bool,
) -> Result<bool, PeerEnd>
    requires replica { IsReplica (setting_of (D.plan door.old)) greeting.now.from }
    requires another { greeting.now.from ≢ D.me door.old }
    requires working { decoder.old.fault ≡ None }
    requires unfinished { IsUnfinished decoder.old.rest }
    requires room { decoder.old.total < MAX_CARRIED }
    ensures on { IfOk result (λ now. PeerRound (D.object door.old) (D.plan door.old) (D.me door.old) greeting.now (D.history door.old) (D.history door.new) (K.left link.old) (K.left link.new) greeted now decoder.old decoder.new) }
    ensures off { IfErr result (λ e. PeerHalt e (D.object door.old) (D.plan door.old) (D.me door.old) greeting.now (D.history door.old) (D.history door.new) (K.left link.old) (K.left link.new) greeted decoder.old) }
    ensures causes { IfErr result (λ e. PeerEndsBy e (K.faults link.old) (K.faults link.new) (K.ends link.old) (K.ends link.new) (D.stops door.old) (D.stops door.new) (D.fulls door.old) (D.fulls door.new) (D.refusals door.old) (D.refusals door.new)) }
    ensures later_faults { K.faults link.old ≤ K.faults link.new }
    ensures later_ends { K.ends link.old ≤ K.ends link.new }
    ensures stops { D.stops door.old ≤ D.stops door.new }
    ensures fulls { D.fulls door.old ≤ D.fulls door.new }
    ensures refusals { D.refusals door.old ≤ D.refusals door.new }
    ensures object { D.object door.new ≡ D.object door.old }
    ensures plan { D.plan door.new ≡ D.plan door.old }
    ensures me { D.me door.new ≡ D.me door.old }
{
    let mut buf = [0u8; MAX_PIECE];
    let n = match link.get(&mut buf) {
        Ok(Got::Bytes(n)) => n,
        Ok(Got::Quiet) => {
            if door.stopped() {
                return Err(PeerEnd::Stopped);
            }
            return Ok(greeted);
        }
        Ok(Got::End) => {
            return Err(PeerEnd::Closed {
                torn: is_torn(decoder),
            });
        }
        Err(_) => return Err(PeerEnd::LinkFault),
    };
    take_piece(alloc, door, decoder, greeting, greeted, &buf[..n])
}

/// Serves a peer, of which the greeting tells, to its end. The first frame must be that greeting; each later one enters the
/// door, in order, up to the first that is a farewell or isn't taken.
pub fn serve_peer<R: Wait, D: Door, K: Link>(
    rt: &R,
    alloc: Global,
    door: &mut D,
    link: &mut K,
    greeting: &Greeting,
) -> PeerEnd
    requires replica { IsReplica (setting_of (D.plan door.old)) greeting.now.from }
    requires another { greeting.now.from ≢ D.me door.old }
    ensures peered { Peered result (D.object door.old) (D.plan door.old) (D.me door.old) greeting.now (D.history door.old) (D.history door.new) (K.left link.old) (K.left link.new) }
    ensures causes { PeerEndsBy result (K.faults link.old) (K.faults link.new) (K.ends link.old) (K.ends link.new) (D.stops door.old) (D.stops door.new) (D.fulls door.old) (D.fulls door.new) (D.refusals door.old) (D.refusals door.new) }
    ensures object { D.object door.new ≡ D.object door.old }
    ensures plan { D.plan door.new ≡ D.plan door.old }
    ensures me { D.me door.new ≡ D.me door.old }
{
    let mut decoder = Decoder::new(alloc);
    let mut greeted = false;
    for _ in rt.forever() {
        if decoder.total() >= MAX_CARRIED {
            return PeerEnd::Bye;
        }
        match peer_round(alloc, door, link, &mut decoder, greeting, greeted) {
            Ok(now) => greeted = now,
            Err(end) => return end,
        }
    }
    unreachable!()
}
