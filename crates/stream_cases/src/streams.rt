// Streams, read.
ghost use Rattle.std.specs.Prelude.{◌≡◌, ◌+◌, ◌≤◌, length};
ghost use Rattle.dns_stream.specs.Reading.{wanted_of};

use anyhow::{Context, Result, bail, ensure};
use case_rows::{octets, written_octets};
use dns_stream::Reader;
use std::alloc::Global;

/// The messages that come of what arrives in turn, each in brackets, and how many octets are wanted then. What a field
/// writes arrives at once; `end` is the end of a stream.
pub(crate) fn messages(alloc: Global, fields: &[&str]) -> Result<String> {
    let mut reader = Reader::new(alloc)?;
    let mut told = String::new(alloc);
    for field in fields {
        if *field == "end" {
            reader.reset();
            tell(alloc, &mut told, &reader)?;
        } else {
            take(alloc, &mut told, &mut reader, &arrived(alloc, field)?)?;
        }
    }
    Ok(format!(in alloc; "{}{}", told.as_str(), reader.wanted())?)
}

/// The octets that a field writes as they stand, or as `COUNT of OCTET`.
fn arrived(alloc: Global, field: &str) -> Result<Vec<u8>> {
    let Some((count, octet)) = field.split_once(" of ") else {
        return octets(alloc, field);
    };
    let octet = *octets(alloc, octet)?.first().context("an octet")?;
    Ok(vec![in alloc; octet; count.parse::<usize>()?]?)
}

/// What the reader wants of the octets that are left, and those behind them.
fn parted<'a>(reader: &Reader, left: &'a [u8]) -> (&'a [u8], &'a [u8])
    requires { 1 ≤ length left.now }
    ensures some { 1 ≤ length result.0.now }
    ensures wanted { length result.0.now ≤ wanted_of reader.now }
    ensures all { length result.0.now + length result.1.now ≡ length left.now }
{
    left.split_at(reader.wanted().min(left.len()))
}

/// Hands the octets that arrived to the reader, as far as it wants at a time, and tells each message.
fn take(alloc: Global, told: &mut String, reader: &mut Reader, arrived: &[u8]) -> Result<()> {
    let mut left = arrived;
    while !left.is_empty() {
        let (piece, rest) = parted(reader, left);
        reader.feed(piece);
        tell(alloc, told, reader)?;
        left = rest;
    }
    Ok(())
}

/// Tells the message that the reader hands on, if any.
fn tell(alloc: Global, told: &mut String, reader: &Reader) -> Result<()> {
    let Some(message) = reader.message() else {
        return Ok(());
    };
    let written = written_message(alloc, message)?;
    told.push_str(format!(in alloc; "[{}] ", written.as_str())?.as_str())?;
    Ok(())
}

/// A message as a field writes it.
fn written_message(alloc: Global, message: &[u8]) -> Result<String> {
    match message {
        [first, rest @ ..] if rest.len() > 63 && rest.iter().all(|octet| octet == first) => {
            let octet = written_octets(alloc, &[*first])?;
            Ok(format!(in alloc; "{} of {}", message.len(), octet.as_str())?)
        }
        _ => written_octets(alloc, message),
    }
}

/// How many octets the messages have in all that a reader hands on of a message of so many octets, in pieces of so many
/// octets, so often.
pub(crate) fn repeated(alloc: Global, fields: &[&str]) -> Result<String> {
    let [length, piece, count] = fields else {
        bail!("a length, a piece's length, and a count");
    };
    let length = length.parse::<u16>()?;
    let piece = piece.parse::<usize>()?;
    ensure!(piece > 0, "a piece of an octet or more");
    let mut stream = vec![in alloc; b'A'; 2 + usize::from(length)]?;
    stream[..2].copy_from_slice(&length.to_be_bytes());
    let mut reader = Reader::new(alloc)?;
    let mut octets: u64 = 0;
    for _ in 0..count.parse::<u32>()? {
        for arrived in stream.chunks(piece) {
            octets = octets.wrapping_add(octets_read(&mut reader, arrived));
        }
    }
    Ok(format!(in alloc; "{octets}")?)
}

/// How many octets the messages have that the reader hands on of what arrived.
fn octets_read(reader: &mut Reader, arrived: &[u8]) -> u64 {
    let mut octets: u64 = 0;
    let mut left = arrived;
    while !left.is_empty() {
        let (piece, rest) = parted(reader, left);
        reader.feed(piece);
        if let Some(message) = reader.message() {
            octets = octets.wrapping_add(message.len() as u64);
        }
        left = rest;
    }
    octets
}
