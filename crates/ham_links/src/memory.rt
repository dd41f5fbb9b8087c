//! Links, ports and switchboards in memory.

ghost use Rattle.std.specs.Prelude.{◌≡◌, ◌<◌, ◌≤◌, [], Some, drop, take, length, IfErr};
ghost use Rattle.ham_bytes.specs.Causes.{Rose};

use crate::link::{Got, Link, LinkFault};
use crate::port::{BoardFault, Port, PortFault, Switchboard};
use std::alloc::Global;

/// What goes wrong on a link in memory, by the numbers of its calls from 1; 0 for never.
#[derive(Clone, Copy, Debug, PartialEq, Eq)]
pub struct Mishaps {
    /// How many bytes a call gives or takes at most; one at least.
    pub most: usize,
    /// The get at which nothing comes for a while.
    pub quiet: u64,
    /// The get that fails.
    pub get: u64,
    /// The put that fails.
    pub put: u64,
}

impl Mishaps {
    /// Nothing goes wrong.
    pub const fn none() -> Mishaps {
        Mishaps {
            most: usize::MAX,
            quiet: 0,
            get: 0,
            put: 0,
        }
    }
}

/// A link that gives these bytes and keeps what it takes. It tells both.
#[derive(Drop)]
pub struct MemLink {
    bytes: Vec<u8>,
    at: usize,
    sent: Vec<u8>,
    mishaps: Mishaps,
    gets: u64,
    puts: u64,
    faults: u64,
    ends: u64,
}

impl MemLink {
    /// A link that gives these bytes.
    pub fn new(alloc: Global, bytes: Vec<u8>, mishaps: Mishaps) -> MemLink
        ensures left { drop result.at result.bytes.items ≡ bytes.items }
        ensures sent { result.sent.items ≡ [] }
        ensures faults { result.faults ≡ 0 }
        ensures ends { result.ends ≡ 0 }
    {
        MemLink {
            bytes,
            at: 0,
            sent: Vec::new(alloc),
            mishaps,
            gets: 0,
            puts: 0,
            faults: 0,
            ends: 0,
        }
    }

    /// What it has taken.
    pub fn sent(&self) -> &[u8]
        ensures { result.now ≡ self.now.sent.items }
    {
        &self.sent
    }
}

impl Link for MemLink {
    ghost faults = { λ l. l.faults };

    ghost ends = { λ l. l.ends };

    ghost left = { λ l. Some (drop l.at l.bytes.items) };

    ghost sent = { λ l. Some l.sent.items };

    fn get(&mut self, buf: &mut [u8]) -> Result<Got, LinkFault> {
        self.gets = self.gets.saturating_add(1);
        if self.gets == self.mishaps.get {
            self.faults = self.faults.saturating_add(1);
            return Err(LinkFault);
        }
        if self.gets == self.mishaps.quiet {
            return Ok(Got::Quiet);
        }
        let Some(rest) = self.bytes.get(self.at..) else {
            self.ends = self.ends.saturating_add(1);
            return Ok(Got::End);
        };
        let count = give(rest, buf, self.mishaps.most);
        if count == 0 {
            self.ends = self.ends.saturating_add(1);
            return Ok(Got::End);
        }
        self.at += count;
        Ok(Got::Bytes(count))
    }

    fn put(&mut self, piece: &[u8]) -> Result<usize, LinkFault> {
        self.puts = self.puts.saturating_add(1);
        if self.puts == self.mishaps.put {
            self.faults = self.faults.saturating_add(1);
            return Err(LinkFault);
        }
        let count = piece.len().min(self.mishaps.most.max(1));
        match self.sent.extend_from_slice(&piece[..count]) {
            Ok(()) => Ok(count),
            Err(_) => {
                self.faults = self.faults.saturating_add(1);
                Err(LinkFault)
            }
        }
    }
}

/// Puts bytes at the start of the buffer, at most so many, but one at least where there is one: how many.
fn give(bytes: &[u8], buf: &mut [u8], most: usize) -> usize
    ensures within { (result ≤ length bytes.now) × (result ≤ length buf.old) }
    ensures some { 0 < length buf.old → result ≡ 0 → bytes.now ≡ [] }
    ensures given { take result buf.new ≡ take result bytes.now }
    ensures room { length buf.new ≡ length buf.old }
{
    let count = bytes.len().min(buf.len()).min(most.max(1));
    buf[..count].copy_from_slice(&bytes[..count]);
    count
}

/// A port that gives these links, the last first, and then none.
#[derive(Drop)]
pub struct MemPort {
    links: Vec<MemLink>,
}

impl MemPort {
    /// A port that gives these links.
    pub fn new(links: Vec<MemLink>) -> MemPort
        ensures { result.links.items ≡ links.items }
    {
        MemPort { links }
    }
}

impl Port for MemPort {
    type Line = MemLink;

    ghost faults = { λ p. 0 };

    fn open(&mut self) -> Result<Option<MemLink>, PortFault> {
        Ok(self.links.pop())
    }
}

/// A switchboard that gives these ports, the last first. It fails where it has none any more.
#[derive(Drop)]
pub struct MemBoard {
    ports: Vec<MemPort>,
    faults: u64,
}

impl MemBoard {
    /// A switchboard that gives these ports.
    pub fn new(ports: Vec<MemPort>) -> MemBoard
        ensures ports { result.ports.items ≡ ports.items }
        ensures faults { result.faults ≡ 0 }
    {
        MemBoard { ports, faults: 0 }
    }

    fn next(&mut self) -> Result<MemPort, BoardFault>
        ensures fault { IfErr result (λ u. Rose self.old.faults self.new.faults) }
        ensures faults { self.old.faults ≤ self.new.faults }
    {
        match self.ports.pop() {
            Some(port) => Ok(port),
            None => {
                self.faults = self.faults.saturating_add(1);
                Err(BoardFault)
            }
        }
    }
}

impl Switchboard for MemBoard {
    type Port = MemPort;

    ghost faults = { λ b. b.faults };

    fn listen(&mut self, _port: u16) -> Result<MemPort, BoardFault> {
        self.next()
    }

    fn dialer(&mut self, _port: u16) -> Result<MemPort, BoardFault> {
        self.next()
    }
}
