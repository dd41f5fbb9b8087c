//! The ticker.

ghost use Rattle.std.specs.Prelude.{◌≡◌};
ghost use Rattle.ham_bytes.specs.Causes.{Rose};
ghost use Rattle.ham_node.specs.Beats.{Beats};

use ham_core::{Door, Input, Reply};
use ham_links::Clock;
use std::sync::Wait;

/// Ticks and pauses until the node is stopped. It enters ticks alone, and returns only where the door answered that the node
/// was stopped.
pub fn beat<R: Wait, D: Door, C: Clock>(rt: &R, door: &mut D, clock: &mut C)
    ensures ticks { Beats (D.object door.old) (D.plan door.old) (D.me door.old) (D.history door.old) (D.history door.new) }
    ensures stopped { Rose (D.stops door.old) (D.stops door.new) }
    ensures object { D.object door.new ≡ D.object door.old }
    ensures plan { D.plan door.new ≡ D.plan door.old }
    ensures me { D.me door.new ≡ D.me door.old }
{
    for _ in rt.forever() {
        match door.enter(Input::Tick) {
            Reply::Stopped => return,
            _ => clock.pause(),
        }
    }
    unreachable!()
}
