// The stream to the first server, over TCP.
ghost use Rattle.std.specs.Prelude.{◌≤◌, IfOk, length};
ghost use Rattle.pac_net.specs.Received.{IsOfStream};

use crate::addresses::address_of;
use pac_ports::{Got, Server};
use std::io::{self, ErrorKind, Read, Write};
use std::net::{Net, OpenStream, TcpStream};
use std::time::Duration;

/// How many seconds a connection, or a write, may take.
const SECONDS: u64 = 1;

/// Sends octets over the stream to a server, which is opened where none is open.
pub(crate) fn write_to<R: Net>(
    rt: &R,
    stream: &mut Option<R::Stream>,
    server: Server,
    octets: &[u8],
) -> io::Result<()> {
    match stream {
        Some(open) => open.write_all(octets),
        None => {
            let open = stream.insert(connected(rt, server)?);
            open.write_all(octets)
        }
    }
}

// A stream to a server, on which each write goes out at once.
fn connected<R: Net>(rt: &R, server: Server) -> io::Result<R::Stream> {
    let limit = Duration::from_secs(SECONDS);
    let stream = TcpStream::connect_timeout(rt, &address_of(server), limit)?;
    stream.set_nodelay(true)?;
    stream.set_write_timeout(Some(limit))?;
    Ok(stream)
}

/// One read of the stream, which waits so long, or not at all: a piece, the end, or a tick where nothing came or a signal
/// did. A stream that fails is at its end.
pub(crate) fn read_piece<S: Read + OpenStream>(
    stream: &mut S,
    wait: Option<Duration>,
    buffer: &mut [u8; 512],
    wanted: usize,
) -> Got
    requires { wanted ≤ 512 }
    ensures { IsOfStream wanted result }
{
    match read_some(stream, wait, &mut buffer[..wanted]) {
        Ok(0) => Got::StreamEnd,
        Ok(count) => Got::Piece(count),
        Err(error) => match error.kind() {
            ErrorKind::WouldBlock | ErrorKind::Interrupted => Got::Tick,
            _ => Got::StreamEnd,
        },
    }
}

fn read_some<S: Read + OpenStream>(
    stream: &mut S,
    wait: Option<Duration>,
    octets: &mut [u8],
) -> io::Result<usize>
    ensures { IfOk result (λ n. n ≤ length octets.old) }
{
    if wait.is_some() {
        stream.set_read_timeout(wait)?;
        return stream.read(octets);
    }
    stream.set_nonblocking(true)?;
    let count = stream.read(octets);
    stream.set_nonblocking(false)?;
    count
}
