// The socket for both servers, over UDP.
ghost use Rattle.std.specs.Prelude.{IfOk};
ghost use Rattle.pac_net.specs.Received.{IsOfSocket};

use crate::addresses::{address_of, is_taken, server_by};
use pac_ports::{Failed, Got, Servers, Which};
use std::io::{self, ErrorKind};
use std::net::{Ipv4Addr, Net, SocketAddr, UdpSocket};
use std::time::Duration;

/// A socket of any port, which is connected to nobody, and the servers that it talks to.
#[derive(Drop)]
pub(crate) struct Line {
    socket: UdpSocket,
    pub(crate) servers: Servers,
}

impl Line {
    pub(crate) fn new<R: Net>(rt: &R, servers: Servers) -> io::Result<Line> {
        let socket = UdpSocket::bind(rt, SocketAddr::from((Ipv4Addr::UNSPECIFIED, 0)))?;
        Ok(Line { socket, servers })
    }

    /// Whether a datagram was sent whole. One send, begun again where a signal interrupted it, which sends nothing. No
    /// system interrupts 2^64 - 1 times.
    pub(crate) fn send_whole(&self, to: Which, datagram: &[u8]) -> bool {
        let address = address_of(server_by(to, self.servers));
        for _turn in 0..u64::MAX {
            match self.socket.send_to(datagram, address) {
                Err(error) if error.kind() == ErrorKind::Interrupted => {}
                Ok(count) => return count == datagram.len(),
                Err(_) => return false,
            }
        }
        false
    }

    /// One receive, which waits so long, or not at all: a tick where none came in time or a signal came. One octet more
    /// than a datagram may have shows those that are too long, which are handed on as empty, as are those of strangers.
    pub(crate) fn receive(
        &self,
        wait: Option<Duration>,
        buffer: &mut [u8; 512],
    ) -> Result<Got, Failed>
        ensures { IfOk result IsOfSocket }
    {
        let mut octets = [0u8; 513];
        match self.heard(wait, &mut octets) {
            Ok((count, sender)) if is_taken(self.servers, sender, count) => {
                buffer[..count].copy_from_slice(&octets[..count]);
                Ok(Got::Datagram(count))
            }
            Ok(_) => Ok(Got::Datagram(0)),
            Err(error) => match error.kind() {
                ErrorKind::WouldBlock | ErrorKind::Interrupted => Ok(Got::Tick),
                _ => Err(Failed),
            },
        }
    }

    fn heard(
        &self,
        wait: Option<Duration>,
        octets: &mut [u8; 513],
    ) -> io::Result<(usize, SocketAddr)> {
        if wait.is_some() {
            self.socket.set_read_timeout(wait)?;
            return self.socket.recv_from(octets);
        }
        self.socket.set_nonblocking(true)?;
        let heard = self.socket.recv_from(octets);
        self.socket.set_nonblocking(false)?;
        heard
    }
}
