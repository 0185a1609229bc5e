// The stream of a link beside a listener of loopback.
use crate::loopback::{bound, loopback, opened_to, sender_of};
use pac_net::UdpLink;
use pac_ports::{Got, Link, StreamAnswer, Which};
use std::io::{self, Read, Write};
use std::net::{TcpListener, TcpStream, UdpSocket};

// A listener, the second server, and a link to both.
#[derive(Drop)]
struct Played<'a> {
    listener: TcpListener,
    second: UdpSocket,
    link: UdpLink<'a, HostRuntime>,
}

fn listening(rt: &HostRuntime) -> io::Result<Played<'_>> {
    let listener = TcpListener::bind(rt, loopback(0))?;
    let second = bound(rt)?;
    let link = opened_to(rt, listener.local_addr()?.port(), &second)?;
    Ok(Played {
        listener,
        second,
        link,
    })
}

// The far end of the stream that a link opens for these octets, which have come there.
fn streamed(played: &mut Played, octets: &[u8; 4]) -> io::Result<TcpStream> {
    if played.link.stream_send(octets).is_err() {
        return Err(io::Error::other("nothing was sent"));
    }
    let (mut far, _) = played.listener.accept()?;
    let mut heard = [0; 4];
    far.read_exact(&mut heard)?;
    if heard == *octets {
        return Ok(far);
    }
    Err(io::Error::other("other octets"))
}

#[test]
fn a_stream_is_read_in_its_pieces(rt: HostRuntime) -> io::Result<()> {
    let mut played = listening(&rt)?;
    let mut far = streamed(&mut played, b"asks")?;
    let mut buffer = [0; 512];
    for octet in *b"reply" {
        far.write_all(&[octet])?;
        assert!(rt; played.link.receive(&mut buffer, 512) == Ok(Got::Piece(1)));
        assert!(rt; buffer[0] == octet);
    }
    far.write_all(b"more")?;
    assert!(rt; played.link.receive(&mut buffer, 3) == Ok(Got::Piece(3)));
    assert!(rt; buffer.starts_with(b"mor"));
    assert!(rt; played.link.receive(&mut buffer, 3) == Ok(Got::Piece(1)));
    assert!(rt; played.link.receive(&mut buffer, 3) == Ok(Got::Tick));
    Ok(())
}

#[test]
fn another_stream_is_opened_behind_the_end(rt: HostRuntime) -> io::Result<()> {
    let mut played = listening(&rt)?;
    let mut buffer = [0; 512];
    for _ in 0..2 {
        let mut far = streamed(&mut played, b"asks")?;
        assert!(rt; played.link.stream_send(b"more").is_ok());
        far.read_exact(&mut [0; 4])?;
        far.write_all(b"r")?;
        drop(far);
        assert!(rt; played.link.receive(&mut buffer, 512) == Ok(Got::Piece(1)));
        assert!(rt; played.link.receive(&mut buffer, 512) == Ok(Got::StreamEnd));
        assert!(rt; played.link.receive(&mut buffer, 512) == Ok(Got::Tick));
    }
    Ok(())
}

// Neither keeps the other waiting: of two that are there each is taken in its turn.
#[test]
fn datagrams_come_beside_a_stream(rt: HostRuntime) -> io::Result<()> {
    let mut played = listening(&rt)?;
    let mut far = streamed(&mut played, b"asks")?;
    let mut buffer = [0; 512];
    assert!(rt; played.link.send(Which::Second, b"question").is_ok());
    let near = sender_of(b"question", &played.second)?;
    played.second.send_to(b"reply", near)?;
    assert!(rt; played.link.receive(&mut buffer, 512) == Ok(Got::Datagram(5)));
    for _ in 0..3 {
        played.second.send_to(b"again", near)?;
        far.write_all(b"abc")?;
        let one = played.link.receive(&mut buffer, 512);
        let other = played.link.receive(&mut buffer, 512);
        assert!(rt; one != other);
        assert!(rt; one == Ok(Got::Piece(3)) || one == Ok(Got::Datagram(5)));
        assert!(rt; other == Ok(Got::Piece(3)) || other == Ok(Got::Datagram(5)));
    }
    Ok(())
}

#[test]
fn a_refused_stream_is_no_fault_of_the_link(rt: HostRuntime) -> io::Result<()> {
    let listener = TcpListener::bind(&rt, loopback(0))?;
    let port = listener.local_addr()?.port();
    drop(listener);
    let second = bound(&rt)?;
    let mut link = opened_to(&rt, port, &second)?;
    let mut buffer = [0; 512];
    assert!(rt; link.stream_send(b"asks") == Err(StreamAnswer::Ended));
    assert!(rt; link.send(Which::Second, b"question").is_ok());
    let near = sender_of(b"question", &second)?;
    second.send_to(b"reply", near)?;
    assert!(rt; link.receive(&mut buffer, 512) == Ok(Got::Datagram(5)));
    assert!(rt; link.receive(&mut buffer, 512) == Ok(Got::Tick));
    Ok(())
}

#[test]
fn a_link_that_is_not_open_has_no_stream(rt: HostRuntime) {
    let mut link = UdpLink::new(&rt);
    assert!(rt; link.stream_send(b"asks") == Err(StreamAnswer::Ended));
}
