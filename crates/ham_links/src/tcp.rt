//! Ports over TCP, on the loopback.
ghost use Rattle.std.specs.Prelude.{◌≡◌};

use crate::clock::beat;
use crate::line::TcpLine;
use crate::port::{BoardFault, Port, PortFault, Switchboard};
use std::io;
use std::io::ErrorKind;
use std::net::{IpAddr, Ipv4Addr, Net, SocketAddr, TcpListener, TcpStream};
use std::os::fd::OwnedFd;

/// Listens, or dials.
#[derive(Drop)]
enum Way {
    Listen(TcpListener),
    Dial(SocketAddr),
}

/// A port on the loopback.
#[derive(Drop)]
pub struct TcpPort<N: Net<Listener = TcpListener, Stream = TcpStream> + Drop> {
    net: N,
    way: Way,
    faults: u64,
}

fn line_over(stream: TcpStream) -> io::Result<TcpLine> {
    stream.set_read_timeout(Some(beat()))?;
    stream.set_write_timeout(Some(beat()))?;
    stream.set_nodelay(true)?;
    Ok(TcpLine::over(stream))
}

/// A listener whose `accept` waits for a beat at most: the system keeps the timeout of reads for it.
fn with_pause(listener: TcpListener) -> io::Result<TcpListener> {
    let socket = TcpStream::from(OwnedFd::from(listener));
    socket.set_read_timeout(Some(beat()))?;
    Ok(TcpListener::from(OwnedFd::from(socket)))
}

fn loopback(port: u16) -> SocketAddr {
    SocketAddr::new(IpAddr::V4(Ipv4Addr::new(127, 0, 0, 1)), port)
}

fn no_one(e: &io::Error) -> bool {
    match e.kind() {
        ErrorKind::WouldBlock => true,
        ErrorKind::TimedOut => true,
        ErrorKind::ConnectionRefused => true,
        _ => false,
    }
}

impl<N: Net<Listener = TcpListener, Stream = TcpStream> + Drop> TcpPort<N> {
    fn reach(&self) -> io::Result<TcpLine> {
        match &self.way {
            Way::Listen(listener) => {
                let (stream, _) = listener.accept()?;
                line_over(stream)
            }
            Way::Dial(addr) => line_over(self.net.connect_timeout(*addr, beat())?),
        }
    }
}

impl<N: Net<Listener = TcpListener, Stream = TcpStream> + Drop> Port for TcpPort<N> {
    type Line = TcpLine;

    ghost faults = { λ p. p.faults };

    fn open(&mut self) -> Result<Option<TcpLine>, PortFault> {
        match self.reach() {
            Ok(line) => Ok(Some(line)),
            Err(e) => {
                if no_one(&e) {
                    return Ok(None);
                }
                self.faults = self.faults.saturating_add(1);
                Err(PortFault)
            }
        }
    }
}

/// The loopback.
#[derive(Drop)]
pub struct TcpBoard<N: Net<Listener = TcpListener, Stream = TcpStream> + Copy> {
    net: N,
    faults: u64,
}

impl<N: Net<Listener = TcpListener, Stream = TcpStream> + Copy> TcpBoard<N> {
    /// The loopback, on which nothing failed yet.
    pub fn new(net: N) -> TcpBoard<N>
        ensures { result.faults ≡ 0 }
    {
        TcpBoard { net, faults: 0 }
    }
}

fn listener<N: Net<Listener = TcpListener, Stream = TcpStream>>(
    net: &N,
    port: u16,
) -> io::Result<TcpListener> {
    with_pause(net.bind(loopback(port))?)
}

impl<N: Net<Listener = TcpListener, Stream = TcpStream> + Copy + Send> Switchboard for TcpBoard<N> {
    type Port = TcpPort<N>;

    ghost faults = { λ b. b.faults };

    fn listen(&mut self, port: u16) -> Result<TcpPort<N>, BoardFault> {
        match listener(&self.net, port) {
            Ok(listener) => Ok(TcpPort {
                net: self.net,
                way: Way::Listen(listener),
                faults: 0,
            }),
            Err(_) => {
                self.faults = self.faults.saturating_add(1);
                Err(BoardFault)
            }
        }
    }

    fn dialer(&mut self, port: u16) -> Result<TcpPort<N>, BoardFault> {
        Ok(TcpPort {
            net: self.net,
            way: Way::Dial(loopback(port)),
            faults: 0,
        })
    }
}
