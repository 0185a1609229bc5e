// Servers, and where they are for the machine.
ghost use Rattle.std.specs.Prelude.{◌≡◌, ◌↔◌, Some, IsTrue};
ghost use Rattle.pac_net.specs.Addresses.{server_at, server_by, IsTaken};

use pac_ports::{Server, Servers, Which};
use std::net::{Ipv4Addr, SocketAddr, SocketAddrV4};

/// The address of a server.
pub(crate) fn address_of(server: Server) -> SocketAddr
    ensures { server_at result ≡ Some server }
{
    let address = Ipv4Addr::from_octets(server.address.to_be_bytes());
    SocketAddr::V4(SocketAddrV4::new(address, server.port))
}

/// The server at an address, which is none where that isn't of IPv4.
pub(crate) fn server_at(address: SocketAddr) -> Option<Server>
    ensures { result ≡ server_at address }
{
    match address {
        SocketAddr::V4(place) => Some(Server {
            address: u32::from_be_bytes(place.ip().octets()),
            port: place.port(),
        }),
        SocketAddr::V6(_) => None,
    }
}

/// The one of the servers that is meant.
pub(crate) fn server_by(to: Which, servers: Servers) -> Server
    ensures { result ≡ server_by to servers }
{
    match to {
        Which::First => servers.first,
        Which::Second => servers.second,
    }
}

/// Whether a datagram of so many octets is taken: where it isn't too long and one of the servers sent it.
pub(crate) fn is_taken(servers: Servers, sender: SocketAddr, octets: usize) -> bool
    ensures { IsTrue result ↔ IsTaken servers sender octets }
{
    match server_at(sender) {
        Some(server) => octets <= 512 && (server == servers.first || server == servers.second),
        None => false,
    }
}
