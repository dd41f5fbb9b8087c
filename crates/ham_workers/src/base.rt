//! The ports of a replica.

ghost use Rattle.std.specs.Prelude.{◌≡◌, ◌+◌, ◌≤◌};
ghost use Rattle.ham_workers.specs.declared.base.TheConstants.{MIN_BASE, MAX_BASE};

use ham_syntax::limits::MAX_REPLICAS;

/// How many clients a node serves beside each other.
pub const CLIENTS: u8 = 4;

/// The least base.
pub const MIN_BASE: u16 = 1_024;

/// The greatest base.
pub const MAX_BASE: u16 = 65_000;

/// A replica's base, from which its ports are counted.
#[derive(Clone, Copy, Debug, PartialEq, Eq)]
pub struct Base {
    port: u16,
    ghost within: { (MIN_BASE ≤ port) × (port ≤ MAX_BASE) },
}

impl Base {
    /// A base.
    pub fn new(port: u16) -> Base
        requires { (MIN_BASE ≤ port) × (port ≤ MAX_BASE) }
        ensures { result.port ≡ port }
    {
        Base { port }
    }

    /// The port at which the replica listens for a peer.
    pub fn of_peer(self, peer: u8) -> u16
        requires { peer ≤ MAX_REPLICAS }
        ensures { result ≡ self.port + peer }
    {
        self.port + u16::from(peer)
    }

    /// The port of a worker for clients, which count from 1.
    pub fn of_clients(self, worker: u8) -> u16
        requires { worker ≤ CLIENTS }
        ensures { result ≡ self.port + MAX_REPLICAS + worker }
    {
        self.port + MAX_REPLICAS as u16 + u16::from(worker)
    }
}
