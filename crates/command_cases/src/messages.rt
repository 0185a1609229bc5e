// Messages, as RFC 1035 has them in section 4.1, and RFC 3596 in section 2. Behind a name that asks for IPv6 addresses
// stands `:AAAA`.
use anyhow::{Context, Result};
use std::alloc::Global;
use std::net::{Ipv4Addr, Ipv6Addr};

// The flags of a query that desires recursion, of a reply, and of one that says that there is no such name.
const QUERY: u16 = 0x0100;

const REPLY: u16 = 0x8180;

const NAME_ERROR: u16 = 0x8183;

// The types of records with addresses.
const A: u8 = 1;

const AAAA: u8 = 28;

/// The question for the addresses of a name under a number.
pub(crate) fn question(alloc: Global, number: u16, name: &str) -> Result<Vec<u8>> {
    asked(alloc, number, QUERY, 0, name)
}

/// The reply to it with these addresses, which are parted by commas and may be none at all; or that there is no such
/// name, where `none` stands in their place.
pub(crate) fn reply(alloc: Global, number: u16, name: &str, addresses: &str) -> Result<Vec<u8>> {
    match addresses {
        "none" => asked(alloc, number, NAME_ERROR, 0, name),
        "" => asked(alloc, number, REPLY, 0, name),
        _ => addressed(alloc, number, name, addresses),
    }
}

/// The reply for example.com under 4660, with the address 93.184.216.34: 45 octets, whose flags stand at 2 and whose
/// question at 12.
pub(crate) fn plain_reply(alloc: Global) -> Result<Vec<u8>> {
    reply(alloc, 4660, "example.com", "93.184.216.34")
}

fn addressed(alloc: Global, number: u16, name: &str, addresses: &str) -> Result<Vec<u8>> {
    let count = u16::try_from(addresses.split(',').count())?;
    let mut message = asked(alloc, number, REPLY, count, name)?;
    for address in addresses.split(',') {
        if address.contains(':') {
            let address = address.parse::<Ipv6Addr>().ok().context("an address")?;
            push_record(&mut message, AAAA, &address.octets())?;
        } else {
            let address = address.parse::<Ipv4Addr>().ok().context("an address")?;
            push_record(&mut message, A, &address.octets())?;
        }
    }
    Ok(message)
}

// The owner is the question's name at 12; then the type, IN, 60 seconds, and the octets behind their count.
fn push_record(message: &mut Vec<u8>, kind: u8, octets: &[u8]) -> Result<()> {
    message.extend_from_slice(&[0xc0, 12, 0, kind, 0, 1, 0, 0, 0, 60, 0])?;
    message.push(u8::try_from(octets.len())?)?;
    message.extend_from_slice(octets)?;
    Ok(())
}

// A message with one question and so many answers to come.
fn asked(alloc: Global, number: u16, flags: u16, answers: u16, name: &str) -> Result<Vec<u8>> {
    let mut message = Vec::new(alloc);
    message.extend_from_slice(&number.to_be_bytes())?;
    message.extend_from_slice(&flags.to_be_bytes())?;
    message.extend_from_slice(&[0, 1])?;
    message.extend_from_slice(&answers.to_be_bytes())?;
    message.extend_from_slice(&[0, 0, 0, 0])?;
    let (name, kind) = match name.strip_suffix(":AAAA") {
        Some(name) => (name, AAAA),
        None => (name, A),
    };
    push_name(&mut message, name)?;
    message.extend_from_slice(&[0, kind, 0, 1])?;
    Ok(message)
}

fn push_name(message: &mut Vec<u8>, name: &str) -> Result<()> {
    for label in name.split('.') {
        message.push(u8::try_from(label.len())?)?;
        message.extend_from_slice(label.as_bytes())?;
    }
    message.push(0)?;
    Ok(())
}

/// The name and the number for which these octets are the question, parted by a slash; none where they are none.
pub(crate) fn question_in(alloc: Global, message: &[u8]) -> Result<Option<String>> {
    let [first, second, .., kind, _, _] = message else {
        return Ok(None);
    };
    let number = u16::from_be_bytes([*first, *second]);
    let mut name = name_in(alloc, message)?;
    if *kind == AAAA {
        name.push_str(":AAAA")?;
    }
    if question(alloc, number, &name)?.as_slice() != message {
        return Ok(None);
    }
    Ok(Some(format!(in alloc; "{name}/{number}")?))
}

// The labels at 12, parted by dots, up to the root or the end.
fn name_in(alloc: Global, message: &[u8]) -> Result<String> {
    let mut name = String::new(alloc);
    let mut left = 0u8;
    for octet in message.iter().skip(12) {
        match (left, *octet) {
            (0, 0) => break,
            (0, length) => {
                push_dot(&mut name)?;
                left = length;
            }
            (_, letter) => {
                name.push(char::from(letter))?;
                left -= 1;
            }
        }
    }
    Ok(name)
}

// Appends a dot, but at the beginning.
fn push_dot(name: &mut String) -> Result<()> {
    if !name.is_empty() {
        name.push('.')?;
    }
    Ok(())
}
