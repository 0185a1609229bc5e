// What comes over the link.
use crate::messages::{plain_reply, reply};
use anyhow::{Context, Result, bail, ensure};
use case_rows::octets;
use pac_ports::{LinkEvent, MemoryLink};
use std::alloc::Global;

// The room of a link for moves, where none is said.
const ROOM: usize = 20_000;

/// A link over which these events come, parted by blanks: one of `tick`, `empty` and `end` with `*N` behind it for so
/// many of them; a datagram; or `piece:` and a datagram, whose octets come over the stream. Behind `fails:` stands the
/// number of a call that fails. The room for moves is said by `room:N` before all.
pub(crate) fn link_over(alloc: Global, coming: &str) -> Result<MemoryLink> {
    let (room, events) = room_in(coming)?;
    let mut link = MemoryLink::new(alloc, room)?;
    for event in events.split_whitespace() {
        add(alloc, &mut link, event)?;
    }
    Ok(link)
}

fn room_in(coming: &str) -> Result<(usize, &str)> {
    let Some(said) = coming.strip_prefix("room:") else {
        return Ok((ROOM, coming));
    };
    let (room, events) = said.split_once(' ').context("events behind a room")?;
    Ok((room.parse::<usize>()?, events))
}

fn add(alloc: Global, link: &mut MemoryLink, event: &str) -> Result<()> {
    if let Some(call) = event.strip_prefix("fails:") {
        link.fail_at(alloc, call.parse::<u64>()?)?;
    } else if let Some((kind, count)) = event.split_once('*') {
        add_many(alloc, link, kind, count.parse::<u32>()?)?;
    } else if let Some(piece) = event.strip_prefix("piece:") {
        add_piece(alloc, link, datagram_in(alloc, piece)?)?;
    } else {
        add_datagram(alloc, link, datagram_in(alloc, event)?)?;
    }
    Ok(())
}

/// Adds so many ticks, datagrams without an octet, or ends of the stream.
fn add_many(alloc: Global, link: &mut MemoryLink, kind: &str, count: u32) -> Result<()> {
    for _turn in 0..count {
        let event = match kind {
            "tick" => LinkEvent::Tick,
            "empty" => LinkEvent::Datagram(Vec::new(alloc)),
            "end" => LinkEvent::StreamEnd,
            _ => bail!("no event {kind}"),
        };
        link.event(alloc, event)?;
    }
    Ok(())
}

fn add_piece(alloc: Global, link: &mut MemoryLink, octets: Vec<u8>) -> Result<()> {
    ensure!(!octets.is_empty(), "no octets");
    link.event(alloc, LinkEvent::Piece(octets))?;
    Ok(())
}

fn add_datagram(alloc: Global, link: &mut MemoryLink, datagram: Vec<u8>) -> Result<()> {
    ensure!(datagram.len() <= 512, "too long");
    link.event(alloc, LinkEvent::Datagram(datagram))?;
    Ok(())
}

/// A datagram: `octets:` and what a field writes, a reply `NAME/NUMBER=ADDRESSES`, `reply` for the plain one, `front:N`
/// for its first N octets, `behind:N` for those behind them, or `with:AT:` and what a field writes for it with these
/// octets in place of its own; or `framed:` and one of these, with its length before it.
fn datagram_in(alloc: Global, event: &str) -> Result<Vec<u8>> {
    match event.strip_prefix("framed:") {
        Some(message) => framed(alloc, &message_in(alloc, message)?),
        None => message_in(alloc, event),
    }
}

fn framed(alloc: Global, message: &[u8]) -> Result<Vec<u8>> {
    let mut frame = Vec::new(alloc);
    frame.extend_from_slice(&u16::try_from(message.len())?.to_be_bytes())?;
    frame.extend_from_slice(message)?;
    Ok(frame)
}

fn message_in(alloc: Global, event: &str) -> Result<Vec<u8>> {
    if let Some(written) = event.strip_prefix("octets:") {
        octets(alloc, written)
    } else if let Some(count) = event.strip_prefix("front:") {
        front(alloc, count.parse::<usize>()?)
    } else if let Some(count) = event.strip_prefix("behind:") {
        behind(alloc, count.parse::<usize>()?)
    } else if let Some(change) = event.strip_prefix("with:") {
        changed(alloc, change)
    } else if event == "reply" {
        plain_reply(alloc)
    } else {
        reply_in(alloc, event)
    }
}

fn front(alloc: Global, count: usize) -> Result<Vec<u8>> {
    let mut message = plain_reply(alloc)?;
    message.truncate(count);
    Ok(message)
}

fn behind(alloc: Global, count: usize) -> Result<Vec<u8>> {
    let message = plain_reply(alloc)?;
    Ok(message.get(count..).context("a place")?.to_vec(alloc)?)
}

// The octets may go past the end.
fn changed(alloc: Global, change: &str) -> Result<Vec<u8>> {
    let (at, written) = change.split_once(':').context("a place and octets")?;
    let octets = octets(alloc, written)?;
    let message = plain_reply(alloc)?;
    let front = message.get(..at.parse::<usize>()?).context("a place")?;
    let mut whole = front.to_vec(alloc)?;
    whole.extend_from_slice(&octets)?;
    let back = message.get(whole.len()..).unwrap_or(&[]);
    whole.extend_from_slice(back)?;
    Ok(whole)
}

fn reply_in(alloc: Global, event: &str) -> Result<Vec<u8>> {
    let (question, addresses) = event.split_once('=').context("no event")?;
    let (name, number) = question.split_once('/').context("a name and a number")?;
    reply(alloc, number.parse::<u16>()?, name, addresses)
}
