//! Links over sockets.

ghost use Rattle.std.specs.Prelude.{None};

use crate::link::{Got, Link, LinkFault};
use std::io::{ErrorKind, Read, Write};
use std::net::TcpStream;

/// A link over a socket, whose reads wait for a while at most. What is left and what was sent is not told.
#[derive(Drop)]
pub struct TcpLine {
    stream: TcpStream,
    faults: u64,
    ends: u64,
}

impl TcpLine {
    /// A link over a socket that has its timeouts.
    pub(crate) fn over(stream: TcpStream) -> TcpLine {
        TcpLine {
            stream,
            faults: 0,
            ends: 0,
        }
    }
}

impl Link for TcpLine {
    ghost faults = { λ l. l.faults };

    ghost ends = { λ l. l.ends };

    ghost left = { λ _. None };

    ghost sent = { λ _. None };

    fn get(&mut self, buf: &mut [u8]) -> Result<Got, LinkFault> {
        match self.stream.read(buf) {
            Ok(0) => {
                self.ends = self.ends.saturating_add(1);
                Ok(Got::End)
            }
            Ok(n) => Ok(Got::Bytes(n)),
            Err(e) => match e.kind() {
                ErrorKind::WouldBlock => Ok(Got::Quiet),
                ErrorKind::TimedOut => Ok(Got::Quiet),
                ErrorKind::Interrupted => Ok(Got::Quiet),
                _ => {
                    self.faults = self.faults.saturating_add(1);
                    Err(LinkFault)
                }
            },
        }
    }

    fn put(&mut self, piece: &[u8]) -> Result<usize, LinkFault> {
        match self.stream.write(piece) {
            Ok(n) if n > 0 || piece.is_empty() => Ok(n),
            _ => {
                self.faults = self.faults.saturating_add(1);
                Err(LinkFault)
            }
        }
    }
}
