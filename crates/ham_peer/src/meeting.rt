//! The frames of a peer, one after another.

ghost use Rattle.std.specs.Prelude.{◌≡◌, ◌≢◌, ◌++◌, ◌≤◌, ◌↔◌, IsTrue, List, IfOk, IfErr};
ghost use Rattle.ham_frame.specs.Spelling.{Fits, AllFit};
ghost use Rattle.ham_frame.specs.declared.frame.Frame.{Frame};
ghost use Rattle.ham_turns.specs.Settings.{setting_of, IsReplica};
ghost use Rattle.ham_peer.specs.Delivering.{Way, Goes, going, hello_of, is_bye, way_after, Ends, Meets, Delivers, EndsAt, MetBy};

use crate::greeting::Greeting;
use ham_core::{Door, Input, Reply};
use ham_frame::{Frame, Frames, VERSION, Why};
use ham_turns::DeliverRefusal;

/// How serving a peer ended.
#[derive(Debug, Drop)]
pub enum PeerEnd {
    /// The peer said farewell, or the link carried all the bytes that a link may.
    Bye,
    /// The link came to its end; torn, within a frame.
    Closed { torn: bool },
    /// The first frame isn't the Hello that is awaited.
    BadHello,
    /// After so many bytes of the stream a byte came that no frame has there.
    Bad { at: u64, why: Why },
    /// The node refused a frame.
    Refused(DeliverRefusal),
    /// The link failed.
    LinkFault,
    /// The node stops, or was stopped.
    Stopped,
    /// The node's journal is full.
    Full,
    /// Memory ran out.
    NoMemory,
}

/// Whether a frame is the Hello that is awaited.
fn is_hello(greeting: &Greeting, frame: &Frame) -> bool
    ensures { IsTrue result ↔ (frame.now ≡ hello_of greeting.now) }
{
    match frame {
        Frame::Hello {
            version,
            digest,
            from,
            of,
        } => {
            *version == VERSION
                && *digest == greeting.digest
                && *from == greeting.from
                && *of == greeting.of
        }
        Frame::Call(_) => false,
        Frame::Ack { .. } => false,
        Frame::Request { .. } => false,
        Frame::Verdict { .. } => false,
        Frame::Bye => false,
    }
}

/// Whether a frame is a farewell.
fn is_farewell(frame: &Frame) -> bool
    ensures { result ≡ is_bye frame.now }
{
    match frame {
        Frame::Bye => true,
        Frame::Hello { .. } => false,
        Frame::Call(_) => false,
        Frame::Ack { .. } => false,
        Frame::Request { .. } => false,
        Frame::Verdict { .. } => false,
    }
}

/// How it goes on after a reply to a frame that is a farewell or isn't.
fn after(bye: bool, reply: Reply) -> Result<(), PeerEnd>
    ensures on { IfOk result (λ u. way_after bye reply ≡ Goes) }
    ensures off { IfErr result (λ e. way_after bye reply ≡ Ends e) }
{
    match reply {
        Reply::NotDelivered(why) => Err(PeerEnd::Refused(why)),
        Reply::Full => Err(PeerEnd::Full),
        Reply::Stopped => Err(PeerEnd::Stopped),
        Reply::NoMemory => Err(PeerEnd::NoMemory),
        _ => {
            if bye {
                return Err(PeerEnd::Bye);
            }
            Ok(())
        }
    }
}

/// Meets one frame.
fn meet<D: Door>(
    door: &mut D,
    greeting: &Greeting,
    greeted: bool,
    frame: Frame,
) -> Result<(), PeerEnd>
    requires replica { IsReplica (setting_of (D.plan door.old)) greeting.now.from }
    requires another { greeting.now.from ≢ D.me door.old }
    requires fits { Fits frame }
    ensures on { IfOk result (λ u. Meets (D.object door.old) (D.plan door.old) (D.me door.old) greeting.now (going greeted) (D.history door.old) frame Goes (D.history door.new)) }
    ensures off { IfErr result (λ e. Meets (D.object door.old) (D.plan door.old) (D.me door.old) greeting.now (going greeted) (D.history door.old) frame (Ends e) (D.history door.new)) }
    ensures causes { IfErr result (λ e. MetBy e (D.stops door.old) (D.stops door.new) (D.fulls door.old) (D.fulls door.new) (D.refusals door.old) (D.refusals door.new)) }
    ensures stops { D.stops door.old ≤ D.stops door.new }
    ensures fulls { D.fulls door.old ≤ D.fulls door.new }
    ensures refusals { D.refusals door.old ≤ D.refusals door.new }
    ensures object { D.object door.new ≡ D.object door.old }
    ensures plan { D.plan door.new ≡ D.plan door.old }
    ensures me { D.me door.new ≡ D.me door.old }
{
    if !greeted {
        if is_hello(greeting, &frame) {
            return Ok(());
        }
        return Err(PeerEnd::BadHello);
    }
    let bye = is_farewell(&frame);
    let reply = door.enter(Input::Deliver {
        from: greeting.from,
        frame,
    });
    after(bye, reply)
}

/// Meets frames, up to one at which it ends. Whether the Hello was among what was met.
pub(crate) fn meet_all<D: Door>(
    door: &mut D,
    greeting: &Greeting,
    greeted: bool,
    frames: &Frames,
) -> Result<bool, PeerEnd>
    requires replica { IsReplica (setting_of (D.plan door.old)) greeting.now.from }
    requires another { greeting.now.from ≢ D.me door.old }
    requires fits { AllFit frames.now }
    ensures on { IfOk result (λ now. Delivers (D.object door.old) (D.plan door.old) (D.me door.old) greeting.now (going greeted) (D.history door.old) frames.now (going now) (D.history door.new)) }
    ensures off { IfErr result (λ e. (met : List Frame) × (later : List Frame) × (way : Way) × (frames.now ≡ met ++ later) × EndsAt e way
        × Delivers (D.object door.old) (D.plan door.old) (D.me door.old) greeting.now (going greeted) (D.history door.old) met way (D.history door.new)) }
    ensures causes { IfErr result (λ e. MetBy e (D.stops door.old) (D.stops door.new) (D.fulls door.old) (D.fulls door.new) (D.refusals door.old) (D.refusals door.new)) }
    ensures stops { D.stops door.old ≤ D.stops door.new }
    ensures fulls { D.fulls door.old ≤ D.fulls door.new }
    ensures refusals { D.refusals door.old ≤ D.refusals door.new }
    ensures object { D.object door.new ≡ D.object door.old }
    ensures plan { D.plan door.new ≡ D.plan door.old }
    ensures me { D.me door.new ≡ D.me door.old }
{
    let mut greeted = greeted;
    let all = frames.items();
    for frame in all {
        let copy = match frame.copy() {
            Ok(copy) => copy,
            Err(_) => return Err(PeerEnd::NoMemory),
        };
        match meet(door, greeting, greeted, copy) {
            Ok(()) => greeted = true,
            Err(end) => return Err(end),
        }
    }
    Ok(greeted)
}
