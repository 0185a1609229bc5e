// Sockets on loopback, in one process.
use crate::loopback::{bound, opened, sender_of};
use pac_net::{RandomDice, UdpLink};
use pac_ports::{Dice, Got, Link, Server, Which};
use std::io;
use std::net::{Ipv4Addr, SocketAddr, UdpSocket};

#[test]
fn both_servers_are_asked_and_heard(rt: HostRuntime) -> io::Result<()> {
    let first = bound(&rt)?;
    let second = bound(&rt)?;
    let mut link = opened(&rt, &first, &second)?;
    let mut buffer = [0u8; 512];
    assert!(rt; link.send(Which::First, b"question").is_ok());
    let near = sender_of(b"question", &first)?;
    assert!(rt; link.send(Which::Second, b"again").is_ok());
    assert!(rt; sender_of(b"again", &second)? == near);
    second.send_to(b"reply", near)?;
    assert!(rt; link.receive(&mut buffer, 512) == Ok(Got::Datagram(5)));
    assert!(rt; buffer.starts_with(b"reply"));
    first.send_to(b"late", near)?;
    assert!(rt; link.receive(&mut buffer, 512) == Ok(Got::Datagram(4)));
    assert!(rt; buffer.starts_with(b"late"));
    assert!(rt; link.receive(&mut buffer, 512) == Ok(Got::Tick));
    Ok(())
}

#[test]
fn a_server_that_was_not_asked_is_heard(rt: HostRuntime) -> io::Result<()> {
    let first = bound(&rt)?;
    let second = bound(&rt)?;
    let mut link = opened(&rt, &first, &second)?;
    let mut buffer = [0u8; 512];
    assert!(rt; link.send(Which::First, b"question").is_ok());
    let near = sender_of(b"question", &first)?;
    second.send_to(b"reply", near)?;
    assert!(rt; link.receive(&mut buffer, 512) == Ok(Got::Datagram(5)));
    assert!(rt; buffer.starts_with(b"reply"));
    Ok(())
}

#[test]
fn long_datagrams_are_empty(rt: HostRuntime) -> io::Result<()> {
    let far = bound(&rt)?;
    let mut link = opened(&rt, &far, &far)?;
    let mut buffer = [0u8; 512];
    assert!(rt; link.send(Which::Second, b"question").is_ok());
    let near = sender_of(b"question", &far)?;
    // 512 octets are handed on, one more is an empty datagram
    far.send_to(&[7; 512], near)?;
    assert!(rt; link.receive(&mut buffer, 512) == Ok(Got::Datagram(512)));
    assert!(rt; buffer == [7; 512]);
    far.send_to(&[8; 513], near)?;
    assert!(rt; link.receive(&mut buffer, 512) == Ok(Got::Datagram(0)));
    assert!(rt; buffer == [7; 512]);
    Ok(())
}

// The strangers have the address of a server and another port, or its port and another address.
#[test]
fn strangers_are_heard_as_empty(rt: HostRuntime) -> io::Result<()> {
    let first = bound(&rt)?;
    let second = bound(&rt)?;
    let other = bound(&rt)?;
    let place = SocketAddr::from((Ipv4Addr::new(127, 0, 0, 2), first.local_addr()?.port()));
    let neighbour = UdpSocket::bind(&rt, place)?;
    let mut link = opened(&rt, &first, &second)?;
    let mut buffer = [7u8; 512];
    assert!(rt; link.send(Which::First, b"question").is_ok());
    let near = sender_of(b"question", &first)?;
    other.send_to(b"forged", near)?;
    assert!(rt; link.receive(&mut buffer, 512) == Ok(Got::Datagram(0)));
    neighbour.send_to(b"forged", near)?;
    assert!(rt; link.receive(&mut buffer, 512) == Ok(Got::Datagram(0)));
    assert!(rt; buffer == [7; 512]);
    assert!(rt; link.receive(&mut buffer, 512) == Ok(Got::Tick));
    Ok(())
}

// A socket that is connected to nobody isn't told that nobody listens.
#[test]
fn a_closed_port_is_silent(rt: HostRuntime) -> io::Result<()> {
    let first = bound(&rt)?;
    let second = bound(&rt)?;
    let mut link = opened(&rt, &first, &second)?;
    let mut buffer = [0u8; 512];
    drop(first);
    assert!(rt; link.send(Which::First, b"question").is_ok());
    assert!(rt; link.receive(&mut buffer, 512) == Ok(Got::Tick));
    assert!(rt; link.send(Which::Second, b"question").is_ok());
    let near = sender_of(b"question", &second)?;
    second.send_to(b"reply", near)?;
    assert!(rt; link.receive(&mut buffer, 512) == Ok(Got::Datagram(5)));
    Ok(())
}

#[test]
fn a_call_that_the_machine_refuses_is_a_fault(rt: HostRuntime) -> io::Result<()> {
    let everybody = Server {
        address: 0xffff_ffff,
        port: 53,
    };
    let mut link = UdpLink::new(&rt);
    assert!(rt; link.send(Which::First, b"question").is_err());
    assert!(rt; link.receive(&mut [0; 512], 512).is_err());
    assert!(rt; link.open(everybody, everybody).is_ok());
    assert!(rt; link.send(Which::First, b"question").is_err());
    assert!(rt; link.receive(&mut [0; 512], 512) == Ok(Got::Tick));
    Ok(())
}

#[test]
fn two_dice_differ(rt: HostRuntime) {
    let mut dice = RandomDice::new(&rt);
    let mut other = RandomDice::new(&rt);
    let mine = [dice.id(), dice.id(), dice.id(), dice.id()];
    let theirs = [other.id(), other.id(), other.id(), other.id()];
    assert!(rt; mine != theirs);
}
