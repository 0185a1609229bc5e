// Names in messages.
use crate::messages::message_in;
use crate::names::{name_in, word};
use anyhow::{Result, bail, ensure};
use case_rows::written_octets;
use dns_name::{name_end, same_name, skip_name, spells, write_name};
use std::alloc::Global;

/// The end of the name at a place of a message, as it is checked and as it is skipped.
pub(crate) fn end(alloc: Global, fields: &[&str]) -> Result<String> {
    let [place, message @ ..] = fields else {
        bail!("a place and a message");
    };
    let message = message_in(alloc, message)?;
    let place = place.parse::<usize>()?;
    match skip_name(&message, place) {
        None => word(alloc, "nothing"),
        Some(end) => Ok(format!(in alloc; "{end} {}", name_end(&message, place))?),
    }
}

/// Whether a name is spelled at a place of a message.
pub(crate) fn is_spelled(alloc: Global, fields: &[&str]) -> Result<String> {
    let [place, name, message @ ..] = fields else {
        bail!("a place, a name and a message");
    };
    let message = message_in(alloc, message)?;
    let name = name_in(alloc, name)?;
    Ok(format!(in alloc; "{}", spells(&message, place.parse::<usize>()?, &name))?)
}

/// Whether the names at two places of a message are the same.
pub(crate) fn are_same(alloc: Global, fields: &[&str]) -> Result<String> {
    let [one, other, message @ ..] = fields else {
        bail!("two places and a message");
    };
    let message = message_in(alloc, message)?;
    let same = same_name(&message, one.parse::<usize>()?, other.parse::<usize>()?);
    Ok(format!(in alloc; "{same}")?)
}

/// A name that is written at a place: its end, the octets from one before to one behind, and whether it is spelled.
pub(crate) fn written(alloc: Global, fields: &[&str]) -> Result<String> {
    let [place, name] = fields else {
        bail!("a place and a name");
    };
    let place = place.parse::<usize>()?;
    ensure!(place >= 1 && place <= 257, "a place from 1 to 257");
    let name = name_in(alloc, name)?;
    let mut buffer = [7u8; 512];
    let end = write_name(&mut buffer, place, &name);
    let Some(octets) = buffer.get(place - 1..end.saturating_add(1)) else {
        bail!("a name that ends at {end}");
    };
    let octets = written_octets(alloc, octets)?;
    let spelled = spells(&buffer, place, &name);
    Ok(format!(in alloc; "{end} {} {spelled}", octets.as_str())?)
}
