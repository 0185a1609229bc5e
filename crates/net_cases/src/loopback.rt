// Sockets of loopback, and links to them.
use pac_net::UdpLink;
use pac_ports::{Link, Server};
use std::io;
use std::net::{Ipv4Addr, SocketAddr, UdpSocket};

pub(crate) fn loopback(port: u16) -> SocketAddr {
    SocketAddr::from((Ipv4Addr::LOCALHOST, port))
}

/// A socket of any port of loopback.
pub(crate) fn bound(rt: &HostRuntime) -> io::Result<UdpSocket> {
    UdpSocket::bind(rt, loopback(0))
}

/// A link to two sockets.
pub(crate) fn opened<'a>(
    rt: &'a HostRuntime,
    first: &UdpSocket,
    second: &UdpSocket,
) -> io::Result<UdpLink<'a, HostRuntime>> {
    opened_to(rt, first.local_addr()?.port(), second)
}

/// A link to a port and a socket.
pub(crate) fn opened_to<'a>(
    rt: &'a HostRuntime,
    first: u16,
    second: &UdpSocket,
) -> io::Result<UdpLink<'a, HostRuntime>> {
    let mut link = UdpLink::new(rt);
    match link.open(server(first), server(second.local_addr()?.port())) {
        Ok(()) => Ok(link),
        Err(_) => Err(io::Error::other("the link isn't open")),
    }
}

fn server(port: u16) -> Server {
    Server {
        address: 0x7f00_0001,
        port,
    }
}

/// Where the datagram came from that a socket has received, if it is this one.
pub(crate) fn sender_of(wanted: &[u8], socket: &UdpSocket) -> io::Result<SocketAddr> {
    let mut heard = [0u8; 512];
    let (count, near) = socket.recv_from(&mut heard)?;
    if count == wanted.len() && heard.starts_with(wanted) {
        return Ok(near);
    }
    Err(io::Error::other("another datagram"))
}
