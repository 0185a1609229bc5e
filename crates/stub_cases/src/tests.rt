// A stub beside a server that is silent, slow or hostile.
ghost use Rattle.std.specs.Prelude.{◌+◌, ◌<◌, ◌≤◌, length};

use dns_message::write_reply;
use pac_names::{Answer, LookupName, NameKind};
use pac_ports::Which;
use std::alloc::{AllocError, Global};
use std::test::Fail;
use stub_poller::Stub;

// The reply to the question for example.com under the number 1234 (hexadecimal), with the address 93.184.216.34. Its
// question stands at 12, the answer's owner at 29.
const REPLY: [u8; 45] = [
    0x12, 0x34, 0x81, 0x80, 0x00, 0x01, 0x00, 0x01, 0x00, 0x00, 0x00, 0x00, 0x07, 0x65, 0x78, 0x61,
    0x6d, 0x70, 0x6c, 0x65, 0x03, 0x63, 0x6f, 0x6d, 0x00, 0x00, 0x01, 0x00, 0x01, 0xc0, 0x0c, 0x00,
    0x01, 0x00, 0x01, 0x00, 0x00, 0x00, 0x3c, 0x00, 0x04, 0x5d, 0xb8, 0xd8, 0x22,
];

// The same with TC set: what fits of it was sent.
const TRUNCATED: [u8; 45] = [
    0x12, 0x34, 0x83, 0x80, 0x00, 0x01, 0x00, 0x01, 0x00, 0x00, 0x00, 0x00, 0x07, 0x65, 0x78, 0x61,
    0x6d, 0x70, 0x6c, 0x65, 0x03, 0x63, 0x6f, 0x6d, 0x00, 0x00, 0x01, 0x00, 0x01, 0xc0, 0x0c, 0x00,
    0x01, 0x00, 0x01, 0x00, 0x00, 0x00, 0x3c, 0x00, 0x04, 0x5d, 0xb8, 0xd8, 0x22,
];

const ADDRESS: Answer = Answer::Address(0x5db8d822);

// The reply to the question for the IPv6 addresses of example.com under the same number, with the address 2001:db8::1
// (RFC 3596, section 2.2).
const REPLY6: [u8; 57] = [
    0x12, 0x34, 0x81, 0x80, 0x00, 0x01, 0x00, 0x01, 0x00, 0x00, 0x00, 0x00, 0x07, 0x65, 0x78, 0x61,
    0x6d, 0x70, 0x6c, 0x65, 0x03, 0x63, 0x6f, 0x6d, 0x00, 0x00, 0x1c, 0x00, 0x01, 0xc0, 0x0c, 0x00,
    0x1c, 0x00, 0x01, 0x00, 0x00, 0x00, 0x3c, 0x00, 0x10, 0x20, 0x01, 0x0d, 0xb8, 0x00, 0x00, 0x00,
    0x00, 0x00, 0x00, 0x00, 0x00, 0x00, 0x00, 0x00, 0x01,
];

const ADDRESS6: Answer = Answer::Address6(0x2001_0db8_0000_0000_0000_0000_0000_0001);

// A reply for www.example.com under the number 1: an address of web.example.com, and behind it the record that www is
// an alias of web.
const ALIAS: [u8; 67] = [
    0x00, 0x01, 0x81, 0x80, 0x00, 0x01, 0x00, 0x02, 0x00, 0x00, 0x00, 0x00, 0x03, 0x77, 0x77, 0x77,
    0x07, 0x65, 0x78, 0x61, 0x6d, 0x70, 0x6c, 0x65, 0x03, 0x63, 0x6f, 0x6d, 0x00, 0x00, 0x01, 0x00,
    0x01, 0x03, 0x77, 0x65, 0x62, 0xc0, 0x10, 0x00, 0x01, 0x00, 0x01, 0x00, 0x00, 0x00, 0x3c, 0x00,
    0x04, 0x0a, 0x00, 0x00, 0x05, 0xc0, 0x0c, 0x00, 0x05, 0x00, 0x01, 0x00, 0x00, 0x00, 0x3c, 0x00,
    0x02, 0xc0, 0x21,
];

fn name(text: &[u8]) -> Result<LookupName, &'static str> {
    LookupName::from_bytes(text).ok_or("a name")
}

// A stub that has asked for these names, each under its number.
fn asking(alloc: Global, wait: u32, tries: u32, asked: &[(&[u8], u16)]) -> Result<Stub, Fail>
    requires waits { 0 < wait }
    requires wait { wait ≤ 1000 }
    requires tried { 0 < tries }
    requires tries { tries ≤ 8 }
{
    let mut stub = Stub::new(alloc, wait, tries);
    for (text, id) in asked {
        stub.ask(alloc, name(text)?, *id)?;
    }
    Ok(stub)
}

// The beats from 1 to `last` at which the one question in flight is sent again, and whom to.
fn resends(alloc: Global, stub: &mut Stub, last: u32) -> Result<Vec<(u32, Which)>, AllocError> {
    let mut beats = Vec::new(alloc);
    for beat in 1..=last {
        if let Some(sending) = stub.on_beat().resend.first() {
            beats.push((beat, sending.to))?;
        }
    }
    Ok(beats)
}

// Wait, tries, the beats at which a question is sent again, and whom to, and the beat at which its name is dead: after 1,
// 3, 7 waits and so on, to the second server and the first in turn. The first sending goes to the first server.
#[test]
fn repeats_and_deaths(rt: HostRuntime) -> Result<(), Fail> {
    let alloc = rt.alloc();
    for (wait, tries, again, death) in [
        (
            10,
            4,
            [(10, Which::Second), (30, Which::First), (70, Which::Second)].as_slice(),
            150,
        ),
        (1, 1, &[], 1),
        (1, 2, &[(1, Which::Second)], 3),
        (3, 2, &[(3, Which::Second)], 9),
        (1, 3, &[(1, Which::Second), (3, Which::First)], 7),
        (1000, 2, &[(1000, Which::Second)], 3000),
        (
            1,
            8,
            &[
                (1, Which::Second),
                (3, Which::First),
                (7, Which::Second),
                (15, Which::First),
                (31, Which::Second),
                (63, Which::First),
                (127, Which::Second),
            ],
            255,
        ),
    ] {
        let mut stub = asking(alloc, wait, tries, &[(b"example.com", 7)])?;
        let beats = resends(alloc, &mut stub, death - 1)?;
        assert_eq!(rt; beats.as_slice(), again);
        let example = name(b"example.com")?;
        assert!(rt; stub.in_flight(&example));
        assert!(rt; !stub.is_dead(&example));
        let report = stub.on_beat();
        assert!(rt; report.resend.is_empty());
        assert_eq!(rt; report.dead.len(), 1);
        assert!(rt; !stub.in_flight(&example));
        assert!(rt; stub.is_dead(&example));
        assert!(rt; stub.on_beat().dead.is_empty());
    }
    Ok(())
}

// A datagram with octets from an offset on replaced.
fn replaced(mut datagram: [u8; 45], at: usize, octets: &[u8]) -> [u8; 45]
    requires { at + length octets.now ≤ 45 }
{
    datagram[at..at + octets.len()].copy_from_slice(octets);
    datagram
}

// The reply with some octets changed, and what it then answers to the one of two questions in flight that it was for.
// After any other datagram that question is answered by the reply itself.
#[test]
fn forged_replies(rt: HostRuntime) -> Result<(), Fail> {
    let alloc = rt.alloc();
    let example = name(b"example.com")?;
    for (at, octets, want) in [
        // its own number, the number of the other question, and a number that was never drawn
        (0, b"\x12\x34".as_slice(), Some(ADDRESS)),
        (0, b"\x12\x35", None),
        (0, b"\x00\x00", None),
        // another name, another type, another class; the same name in upper case
        (13, b"f", None),
        (25, b"\x00\x1c", None),
        (27, b"\x00\x03", None),
        (13, b"EXAMPLE\x03Com", Some(ADDRESS)),
        // a query, a truncated response, a server's failure, a name error, and no record
        (2, b"\x01\x80", None),
        (2, b"\x83\x80", None),
        (2, b"\x81\x82", None),
        (2, b"\x81\x83", Some(Answer::NoAddress)),
        (6, b"\x00\x00", Some(Answer::NoAddress)),
        // the answer's owner as a pointer to itself, and one past the end
        (29, b"\xc0\x1d", None),
        (29, b"\xc0\xff", None),
    ] {
        assert!(rt; at <= 30);
        assert!(rt; octets.len() <= 15);
        let mut stub = asking(
            alloc,
            10,
            4,
            &[(b"b.example", 0x1235), (b"example.com", 0x1234)],
        )?;
        let answer = stub
            .on_datagram(&replaced(REPLY, at, octets))
            .map(|found| found.1);
        assert_eq!(rt; answer, want, "{octets:?} at {at}");
        assert_eq!(rt; stub.in_flight(&example), want.is_none());
        assert_eq!(rt; stub.on_datagram(&REPLY).is_some(), want.is_none());
        assert!(rt; stub.in_flight(&name(b"b.example")?));
    }
    Ok(())
}

// The reply with TC set, and some octets changed behind that: whether it is then the truncated response to the one of two
// questions in flight that it was for (RFC 1035, section 4.1.1). It is one to no other, and takes nothing out of flight.
#[test]
fn truncated_replies(rt: HostRuntime) -> Result<(), Fail> {
    let alloc = rt.alloc();
    let asked: [(&[u8], u16); 2] = [(b"b.example", 0x1235), (b"example.com", 0x1234)];
    let stub = asking(alloc, 10, 4, &asked)?;
    for (at, octets, want) in [
        // as it is, with a name in upper case, with a server's failure and a name error, and with no record
        (2, b"\x83\x80".as_slice(), Some(0x1234)),
        (13, b"EXAMPLE\x03Com", Some(0x1234)),
        (3, b"\x82", Some(0x1234)),
        (3, b"\x83", Some(0x1234)),
        (6, b"\x00\x00", Some(0x1234)),
        // a whole response, a query, another opcode, no question and two
        (2, b"\x81", None),
        (2, b"\x03", None),
        (2, b"\x93", None),
        (4, b"\x00\x00", None),
        (4, b"\x00\x02", None),
        // the number of the other question, and a number that was never drawn
        (0, b"\x12\x35", None),
        (0, b"\x00\x00", None),
        // another name, another type, another class
        (13, b"f", None),
        (25, b"\x00\x1c", None),
        (27, b"\x00\x03", None),
    ] {
        assert!(rt; at <= 30);
        assert!(rt; octets.len() <= 15);
        let number = stub
            .truncated(&replaced(TRUNCATED, at, octets))
            .map(|question| question.id);
        assert_eq!(rt; number, want, "{octets:?} at {at}");
    }
    Ok(())
}

// How many of its octets the truncated reply has, and whether it is a truncated response then: its question ends at 29.
// It is none where the name is answered, or dead.
#[test]
fn cut_and_late_truncated_replies(rt: HostRuntime) -> Result<(), Fail> {
    let alloc = rt.alloc();
    let example = name(b"example.com")?;
    let mut stub = asking(alloc, 1, 1, &[(b"example.com", 0x1234)])?;
    for (end, want) in [
        (0, false),
        (1, false),
        (11, false),
        (12, false),
        (28, false),
        (29, true),
        (45, true),
    ] {
        assert!(rt; end <= 45);
        let question = stub.truncated(&TRUNCATED[..end]);
        assert_eq!(rt; question.is_some(), want, "{end}");
    }
    let question = stub.truncated(&TRUNCATED).ok_or("a question")?;
    assert!(rt; question.name == example);
    assert!(rt; stub.on_datagram(&TRUNCATED).is_none());
    assert!(rt; stub.on_datagram(&REPLY).is_some());
    assert!(rt; stub.truncated(&TRUNCATED).is_none());

    let mut late = asking(alloc, 1, 1, &[(b"example.com", 0x1234)])?;
    assert_eq!(rt; late.on_beat().dead.len(), 1);
    assert!(rt; late.truncated(&TRUNCATED).is_none());
    Ok(())
}

// Datagrams that are cut or empty, many of them, change nothing; the second reply and the one to a dead name neither.
#[test]
fn cut_doubled_and_late_replies(rt: HostRuntime) -> Result<(), Fail> {
    let alloc = rt.alloc();
    let mut stub = asking(alloc, 1, 1, &[(b"example.com", 0x1234)])?;
    for end in 0..45 {
        assert!(rt; stub.on_datagram(&REPLY[..end]).is_none(), "{end}");
    }
    for _ in 0..10_000 {
        assert!(rt; stub.on_datagram(b"").is_none());
        assert!(rt; stub.on_datagram(&ALIAS).is_none());
    }
    assert!(rt; stub.on_datagram(&REPLY).is_some());
    assert!(rt; stub.on_datagram(&REPLY).is_none());
    assert!(rt; stub.on_beat().dead.is_empty());

    let mut late = asking(alloc, 1, 1, &[(b"example.com", 0x1234)])?;
    assert_eq!(rt; late.on_beat().dead.len(), 1);
    assert!(rt; late.on_datagram(&REPLY).is_none());
    assert!(rt; late.is_dead(&name(b"example.com")?));
    Ok(())
}

// After so many beats, whether a reply is taken: the question was sent to the first server only, then to the second one
// too, and is given up. A datagram doesn't say which server it comes from.
#[test]
fn replies_of_either_server(rt: HostRuntime) -> Result<(), Fail> {
    let alloc = rt.alloc();
    for (beats, taken) in [(0, true), (1, true), (2, true), (3, false)] {
        let mut stub = asking(alloc, 1, 2, &[(b"example.com", 0x1234)])?;
        resends(alloc, &mut stub, beats)?;
        assert_eq!(rt; stub.on_datagram(&REPLY).is_some(), taken, "{beats}");
    }
    Ok(())
}

fn front(buffer: &[u8; 512], count: usize) -> &[u8]
    requires { count ≤ 512 }
{
    &buffer[..count]
}

// Names, each under its number, in the order of asking, and the order in which they are answered: under one number for
// all, too. What is left is sent again in the order of asking, with its number.
#[test]
fn replies_in_any_order(rt: HostRuntime) -> Result<(), Fail> {
    let alloc = rt.alloc();
    for (first, second, third) in [(1, 2, 3), (7, 7, 7), (0, 65535, 0)] {
        let mut stub = asking(
            alloc,
            1,
            8,
            &[
                (b"a.example", first),
                (b"b.example", second),
                (b"c.example", third),
            ],
        )?;
        let mut buffer = [0; 512];
        let address = Answer::Address(0x0a000002);
        let length = write_reply(&mut buffer, second, &name(b"b.example")?, address);
        let found = stub.on_datagram(front(&buffer, length)).ok_or("a reply")?;
        assert!(rt; found.0 == name(b"b.example")?);
        assert_eq!(rt; found.1, address);

        let again = stub.on_beat().resends(alloc)?;
        assert_eq!(rt; again.len(), 2);
        assert_eq!(rt; again[0].to, Which::Second);
        assert!(rt; again[0].question.name == name(b"a.example")?);
        assert_eq!(rt; again[0].question.id, first);
        assert_eq!(rt; again[1].to, Which::Second);
        assert!(rt; again[1].question.name == name(b"c.example")?);
        assert_eq!(rt; again[1].question.id, third);
    }
    let mut stub = asking(alloc, 1, 8, &[(b"www.example.com", 1)])?;
    let found = stub.on_datagram(&ALIAS).ok_or("a reply")?;
    assert_eq!(rt; found.1, Answer::Address(0x0a000005));
    Ok(())
}

// Two questions for one text, one for each family of addresses, are two questions: each is answered by its own reply alone,
// though both have one number.
#[test]
fn replies_of_either_kind(rt: HostRuntime) -> Result<(), Fail> {
    let alloc = rt.alloc();
    let example = name(b"example.com")?;
    let mut stub = asking(alloc, 10, 4, &[(b"example.com", 0x1234)])?;
    stub.ask(alloc, example.with_kind(NameKind::V6), 0x1234)?;
    for (reply, kind, answer) in [
        (REPLY6.as_slice(), NameKind::V6, ADDRESS6),
        (REPLY.as_slice(), NameKind::V4, ADDRESS),
    ] {
        let found = stub.on_datagram(reply).ok_or("a reply")?;
        assert!(rt; found.0 == example.with_kind(kind));
        assert_eq!(rt; found.1, answer);
        assert!(rt; stub.on_datagram(reply).is_none());
    }
    assert!(rt; stub.on_beat().resend.is_empty());
    Ok(())
}

// Asks for five names of a round under two numbers, and takes the replies to the last four. Whether each was a reply to
// its own name.
fn come_and_go(alloc: Global, stub: &mut Stub, round: u8) -> Result<bool, Fail> {
    for first in b"abcde" {
        stub.ask(alloc, name(&[*first, b'.', round])?, u16::from(*first % 2))?;
    }
    let mut buffer = [0; 512];
    let mut own = true;
    for first in b"edcb" {
        let asked = name(&[*first, b'.', round])?;
        let length = write_reply(&mut buffer, u16::from(*first % 2), &asked, ADDRESS);
        let found = stub.on_datagram(front(&buffer, length));
        own = own && found.is_some_and(|found| found.0 == asked);
    }
    Ok(own)
}

// More than a hundred questions come and go under two numbers: each reply takes its own, and those that stay are sent
// again in the order of asking.
#[test]
fn many_questions_under_two_numbers(rt: HostRuntime) -> Result<(), Fail> {
    let alloc = rt.alloc();
    let mut stub = Stub::new(alloc, 1, 8);
    for round in b"abcdefghijklmnopqrstuvwxyz" {
        assert!(rt; come_and_go(alloc, &mut stub, *round)?);
    }
    let again = stub.on_beat().resends(alloc)?;
    assert_eq!(rt; again.len(), 26);
    for (sending, round) in again.iter().zip(b"abcdefghijklmnopqrstuvwxyz") {
        assert!(rt; sending.question.name == name(&[b'a', b'.', *round])?);
    }
    Ok(())
}
