//! A link over UDP. It tells nothing of what it gives and takes, and counts its faults.
ghost use Rattle.da_outside.specs.Link.{HasRoom};
ghost use Rattle.std.specs.Prelude.{◌+◌, ◌^◌, ◌<◌, ◌≤◌, None, IfOk, IsOk, length};

use da_outside::{Link, Taken, Trouble};
use mio::net::UdpSocket;
use std::io;
use std::io::ErrorKind;
use std::net::{Ipv4Addr, Net, SocketAddr};

/// The most bytes that a datagram of UDP carries over IPv4.
const PAYLOAD_MAX: usize = 65_507;

/// A link over UDP: process k has the address 127.0.0.1, and the port that lies k above the one that was bound.
///
/// Its socket is tried and never waited for. What could be sent only after a wait is lost, and so is a datagram of more than
/// 65,507 bytes, which UDP cannot carry: neither is a fault. Who sent a datagram is not looked at. A link that is bound anew
/// keeps its socket until it has the next one, so it cannot be bound to the same port twice.
#[derive(Drop)]
pub struct UdpLink<'a, R> {
    rt: &'a R,
    socket: Option<UdpSocket>,
    port: u16,
    count: u16,
    faults: u64,
    ghost low_port: { port ≤ 65000 },
    ghost few: { count ≤ 64 },
}

impl<'a, R: Net> UdpLink<'a, R> {
    /// A link that has no socket yet, and of which no call has failed. It takes no memory.
    pub fn new(rt: &'a R) -> UdpLink<'a, R> {
        UdpLink {
            rt,
            socket: None,
            port: 0,
            count: 0,
            faults: 0,
        }
    }
}

impl<R: Net> Link for UdpLink<'_, R> {
    ghost told = { λ _. None };

    ghost count = { λ link. link.count };

    ghost faults = { λ link. link.faults };

    fn bind(&mut self, port: u16, me: u16, count: u16) -> Result<(), Trouble> {
        let Ok(socket) = UdpSocket::bind(self.rt, address_of(port, me)) else {
            self.faults = self.faults.saturating_add(1);
            return Err(Trouble::Failed);
        };
        self.socket = Some(socket);
        self.port = port;
        self.count = count;
        Ok(())
    }

    fn take(&mut self, buf: &mut [u8]) -> Result<Taken, Trouble> {
        let Ok(taken) = receive(&self.socket, buf) else {
            self.faults = self.faults.saturating_add(1);
            return Err(Trouble::Failed);
        };
        Ok(taken)
    }

    fn give(&mut self, to: u16, bytes: &[u8]) -> Result<(), Trouble> {
        if send(&self.socket, address_of(self.port, to), bytes).is_err() {
            self.faults = self.faults.saturating_add(1);
            return Err(Trouble::Failed);
        }
        Ok(())
    }
}

// The address of a process.
fn address_of(port: u16, process: u16) -> SocketAddr
    requires { port + process < 2 ^ 16 }
{
    SocketAddr::from((Ipv4Addr::LOCALHOST, port + process))
}

// Tries to receive a datagram.
fn receive(socket: &Option<UdpSocket>, buf: &mut [u8]) -> io::Result<Taken>
    ensures { IfOk result (λ taken. HasRoom taken buf.new) }
{
    let Some(socket) = socket else {
        return Err(io::Error::from(ErrorKind::NotConnected));
    };
    match socket.recv_from(buf) {
        Ok((count, _)) => Ok(Taken::Datagram(count)),
        Err(error) if error.kind() == ErrorKind::WouldBlock => Ok(Taken::Nothing),
        Err(error) => Err(error),
    }
}

// Tries to send a datagram. One that is lost is no error.
fn send(socket: &Option<UdpSocket>, to: SocketAddr, bytes: &[u8]) -> io::Result<()>
    ensures { PAYLOAD_MAX < length bytes.now → IsOk result }
{
    if bytes.len() > PAYLOAD_MAX {
        return Ok(());
    }
    let Some(socket) = socket else {
        return Err(io::Error::from(ErrorKind::NotConnected));
    };
    match socket.send_to(bytes, to) {
        Ok(_) => Ok(()),
        Err(error) if error.kind() == ErrorKind::WouldBlock => Ok(()),
        Err(error) => Err(error),
    }
}
