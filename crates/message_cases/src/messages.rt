// The messages of the table, whole and changed.
ghost use Rattle.std.specs.Prelude.{◌≤◌};

use anyhow::{Context, Result, bail, ensure};
use case_rows::octets;
use std::alloc::{AllocError, Global};

// The question for example.com under the number 1234 (hexadecimal).
const QUESTION: [u8; 29] = [
    0x12, 0x34, 0x01, 0x00, 0x00, 0x01, 0x00, 0x00, 0x00, 0x00, 0x00, 0x00, 0x07, 0x65, 0x78, 0x61,
    0x6d, 0x70, 0x6c, 0x65, 0x03, 0x63, 0x6f, 0x6d, 0x00, 0x00, 0x01, 0x00, 0x01,
];

// Its reply with the address 93.184.216.34; the answer's owner stands at 29.
const REPLY: [u8; 45] = [
    0x12, 0x34, 0x81, 0x80, 0x00, 0x01, 0x00, 0x01, 0x00, 0x00, 0x00, 0x00, 0x07, 0x65, 0x78, 0x61,
    0x6d, 0x70, 0x6c, 0x65, 0x03, 0x63, 0x6f, 0x6d, 0x00, 0x00, 0x01, 0x00, 0x01, 0xc0, 0x0c, 0x00,
    0x01, 0x00, 0x01, 0x00, 0x00, 0x00, 0x3c, 0x00, 0x04, 0x5d, 0xb8, 0xd8, 0x22,
];

// The reply for the IPv6 addresses of example.com under the number 1, with 2001:db8::1; the answer's owner stands at 29.
const REPLY6: [u8; 57] = [
    0x00, 0x01, 0x81, 0x80, 0x00, 0x01, 0x00, 0x01, 0x00, 0x00, 0x00, 0x00, 0x07, 0x65, 0x78, 0x61,
    0x6d, 0x70, 0x6c, 0x65, 0x03, 0x63, 0x6f, 0x6d, 0x00, 0x00, 0x1c, 0x00, 0x01, 0xc0, 0x0c, 0x00,
    0x1c, 0x00, 0x01, 0x00, 0x00, 0x00, 0x3c, 0x00, 0x10, 0x20, 0x01, 0x0d, 0xb8, 0x00, 0x00, 0x00,
    0x00, 0x00, 0x00, 0x00, 0x00, 0x00, 0x00, 0x00, 0x01,
];

// A reply for www.example.com under the number 1: an address of web.example.com, whose name stands at 33, and behind it
// at 53 the record that www is an alias of web.
const ALIAS: [u8; 67] = [
    0x00, 0x01, 0x81, 0x80, 0x00, 0x01, 0x00, 0x02, 0x00, 0x00, 0x00, 0x00, 0x03, 0x77, 0x77, 0x77,
    0x07, 0x65, 0x78, 0x61, 0x6d, 0x70, 0x6c, 0x65, 0x03, 0x63, 0x6f, 0x6d, 0x00, 0x00, 0x01, 0x00,
    0x01, 0x03, 0x77, 0x65, 0x62, 0xc0, 0x10, 0x00, 0x01, 0x00, 0x01, 0x00, 0x00, 0x00, 0x3c, 0x00,
    0x04, 0x0a, 0x00, 0x00, 0x05, 0xc0, 0x0c, 0x00, 0x05, 0x00, 0x01, 0x00, 0x00, 0x00, 0x3c, 0x00,
    0x02, 0xc0, 0x21,
];

/// The message of a field, with the changes of the fields behind it.
pub(crate) fn message_in(alloc: Global, fields: &[&str]) -> Result<Vec<u8>> {
    let Some((name, changes)) = fields.split_first() else {
        bail!("a message");
    };
    let mut message = message_named(alloc, name)?;
    for change in changes {
        let (place, written) = change.split_once(' ').context("a place and octets")?;
        match place {
            "cut" => message.truncate(written.parse::<usize>()?),
            _ => overwrite(
                &mut message,
                place.parse::<usize>()?,
                &octets(alloc, written)?,
            )?,
        }
    }
    Ok(message)
}

fn message_named(alloc: Global, name: &str) -> Result<Vec<u8>> {
    let mut message = Vec::new(alloc);
    match name {
        "nothing" => {}
        "question" => message.extend_from_slice(&QUESTION)?,
        "reply" => message.extend_from_slice(&REPLY)?,
        "reply6" => message.extend_from_slice(&REPLY6)?,
        "alias" => message.extend_from_slice(&ALIAS)?,
        "picture" => return picture(alloc),
        _ => return numbered(alloc, name),
    }
    Ok(message)
}

// F.ISI.ARPA at 20, FOO.F.ISI.ARPA at 40, a pointer to ARPA at 64 and the root at 92: the RFC's own picture.
fn picture(alloc: Global) -> Result<Vec<u8>> {
    let mut message = vec![in alloc; 0u8; 93]?;
    overwrite(&mut message, 20, b"\x01F\x03ISI\x04ARPA\x00")?;
    overwrite(&mut message, 40, b"\x03FOO\xc0\x14")?;
    overwrite(&mut message, 64, b"\xc0\x1a")?;
    Ok(message)
}

fn numbered(alloc: Global, name: &str) -> Result<Vec<u8>> {
    let (name, number) = name.split_once(' ').context("a message")?;
    let number = number.parse::<u8>()?;
    match name {
        "chain" => {
            ensure!(number <= 20, "at most 20 aliases");
            Ok(chain(alloc, number)?)
        }
        "long" => long_name(alloc, number),
        _ => bail!("no message {name}"),
    }
}

// A chain from the name `a` through so many aliases, each record before the one that leads to it, to an address.
fn chain(alloc: Global, steps: u8) -> Result<Vec<u8>, AllocError>
    requires { steps ≤ 20 }
{
    let mut datagram = Vec::new(alloc);
    datagram.extend_from_slice(&[0, 1, 0x81, 0x80, 0, 1, 0, steps + 1, 0, 0, 0, 0])?;
    datagram.extend_from_slice(&[1, b'a', 0, 0, 1, 0, 1])?;
    let last = b'a' + steps;
    datagram.extend_from_slice(&[1, last, 0, 0, 1, 0, 1, 0, 0, 0, 60, 0, 4, 10, 0, 0, 9])?;
    for step in 0..steps {
        let target = last - step;
        datagram.extend_from_slice(&[1, target - 1, 0, 0, 5, 0, 1, 0, 0, 0, 60, 0, 3])?;
        datagram.extend_from_slice(&[1, target, 0])?;
    }
    Ok(datagram)
}

// Three labels of 63 octets and one of so many, and octets behind it.
fn long_name(alloc: Global, last: u8) -> Result<Vec<u8>> {
    let mut message = vec![in alloc; b'a'; 300]?;
    for place in [0, 64, 128] {
        overwrite(&mut message, place, &[63])?;
    }
    overwrite(&mut message, 192, &[last])?;
    overwrite(&mut message, 193 + usize::from(last), &[0])?;
    Ok(message)
}

/// Writes octets over those at a place, and behind the end.
fn overwrite(message: &mut Vec<u8>, place: usize, octets: &[u8]) -> Result<()> {
    let end = place.checked_add(octets.len()).context("a place")?;
    if end > message.len() {
        message.resize(end, 0)?;
    }
    message[place..end].copy_from_slice(octets);
    Ok(())
}
