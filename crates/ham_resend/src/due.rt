//! Calls that are due to be sent again.

ghost use Rattle.std.specs.Prelude.{◌≡◌, ◌<◌, length, IfOk};
ghost use Rattle.ham_resend.specs.Due as due;

use ham_frame::Frame;
use ham_lane::OutLane;
use ham_lists::NoMemory;
use ham_syntax::limits::MAX_DUE;
use std::alloc::Global;

/// The lowest calls above the number that the peer acknowledged, at most 16.
pub fn due_calls(alloc: Global, lane: &OutLane, peer: u8) -> Result<Vec<Frame>, NoMemory>
    requires { peer < length lane.now.acked }
    ensures { IfOk result (λ frames. frames.items ≡ due.due_calls lane.now peer) }
{
    let mut frames = Vec::new(alloc);
    let acked = lane.acked(peer);
    for more in 0..MAX_DUE as u32 {
        match lane.call(acked + 1 + more) {
            Some(call) => frames.push(Frame::Call(call.copy()?))?,
            None => break,
        }
    }
    Ok(frames)
}
