//! Ports and switchboards.

ghost use Rattle.std.specs.Prelude.{ℕ, ◌≤◌, IfErr};
ghost use Rattle.ham_bytes.specs.Causes.{Rose};

use crate::link::Link;
use thiserror::Error;

/// A port gave no link, and counted that.
#[derive(Clone, Copy, Debug, PartialEq, Eq, Drop, Error)]
#[error("the port failed")]
pub struct PortFault;

/// A switchboard gave no port, and counted that.
#[derive(Clone, Copy, Debug, PartialEq, Eq, Drop, Error)]
#[error("the switchboard failed")]
pub struct BoardFault;

/// Where links come from: those that another end opens, or those that are opened here.
pub trait Port {
    type Line: Link + Send + Drop;

    ghost faults: { Self → ℕ };

    /// The next link; none where there was none for a while.
    fn open(&mut self) -> Result<Option<Self::Line>, PortFault>
        ensures fault { IfErr result (λ u. Rose (faults self.old) (faults self.new)) }
        ensures faults { faults self.old ≤ faults self.new };
}

/// Where ports come from.
pub trait Switchboard {
    type Port: Port + Send + Drop;

    ghost faults: { Self → ℕ };

    /// A port at which others open links.
    fn listen(&mut self, port: u16) -> Result<Self::Port, BoardFault>
        ensures fault { IfErr result (λ u. Rose (faults self.old) (faults self.new)) }
        ensures faults { faults self.old ≤ faults self.new };

    /// A port that opens links to another.
    fn dialer(&mut self, port: u16) -> Result<Self::Port, BoardFault>
        ensures fault { IfErr result (λ u. Rose (faults self.old) (faults self.new)) }
        ensures faults { faults self.old ≤ faults self.new };
}
