//! Frames that wait, as they are kept.

ghost use Rattle.std.specs.Prelude.{◌≡◌, IfOk};
ghost use Rattle.ham_replica.specs.Values.{words};
ghost use Rattle.ham_core.specs.Waits.{waits_as, shown, IsSound};

use ham_frame::Frame;
use ham_replica::Replica;
use ham_syntax::{NoMemory, Place};

/// A frame that waits. A decided call is in the replica, so its place is kept, which takes no memory: what a turn sends
/// can't fail to wait.
#[derive(Debug, Drop)]
pub(crate) enum Waiting {
    Call(Place),
    Other(Frame),
}

impl Waiting {
    /// How a frame is kept.
    pub(crate) fn of(frame: &Frame) -> Waiting
        ensures { result ≡ waits_as frame.now }
    {
        match frame {
            Frame::Call(call) => Waiting::Call(call.place()),
            Frame::Hello {
                version,
                digest,
                from,
                of,
            } => Waiting::Other(Frame::Hello {
                version: *version,
                digest: *digest,
                from: *from,
                of: *of,
            }),
            Frame::Ack { lane, count } => Waiting::Other(Frame::Ack {
                lane: *lane,
                count: *count,
            }),
            Frame::Request { group, number, act } => Waiting::Other(Frame::Request {
                group: *group,
                number: *number,
                act: *act,
            }),
            Frame::Verdict {
                group,
                number,
                ruling,
            } => Waiting::Other(Frame::Verdict {
                group: *group,
                number: *number,
                ruling: *ruling,
            }),
            Frame::Bye => Waiting::Other(Frame::Bye),
        }
    }

    /// The frame, in memory of its own.
    pub(crate) fn frame(&self, replica: &Replica) -> Result<Frame, NoMemory>
        requires { IsSound (words replica.now.lists).decided self.now }
        ensures { IfOk result (λ frame. frame ≡ shown (words replica.now.lists).decided self.now) }
    {
        match self {
            Waiting::Other(frame) => frame.copy(),
            Waiting::Call(place) => match replica.call_at(place) {
                Some(call) => Ok(Frame::Call(call.copy()?)),
                None => unreachable!(),
            },
        }
    }
}
