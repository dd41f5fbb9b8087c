//! The outside of a node: links to clients and peers, the ports and the switchboard that they come from, and clocks. Each is a
//! trait with counts of its faults, a form in memory, and one over TCP or the time of the machine.
//!
//! It stands on the outside's words (`ham_bytes`). What serves clients and peers is written over these traits, so that it is
//! proved for every link, however it fails.
#![tactic(auto)]

mod clock;
mod line;
mod link;
mod memory;
mod port;
mod tcp;

pub use clock::{Clock, NoClock, SleepClock};
pub use line::TcpLine;
pub use link::{Got, Link, LinkFault, put_whole};
pub use memory::{MemBoard, MemLink, MemPort, Mishaps};
pub use port::{BoardFault, Port, PortFault, Switchboard};
pub use tcp::{TcpBoard, TcpPort};
