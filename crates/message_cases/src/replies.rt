// Questions and replies, read and written.
use crate::messages::message_in;
use crate::names::{name_in, word, written_name};
use anyhow::{Result, bail};
use case_rows::written_octets;
use dns_message::{read_query, read_reply, truncated, write_query, write_reply};
use pac_names::Answer;
use std::alloc::Global;

// What a buffer holds before a message is written to it.
const FILLED: [u8; 512] = [0xee; 512];

fn number_in(field: &str) -> Result<u16> {
    Ok(u16::from_str_radix(field, 16)?)
}

/// An address of 8 digits or of 32, or `no address`.
fn answer_in(field: &str) -> Result<Answer> {
    match field {
        "no address" => Ok(Answer::NoAddress),
        _ if field.len() > 8 => Ok(Answer::Address6(u128::from_str_radix(field, 16)?)),
        _ => Ok(Answer::Address(u32::from_str_radix(field, 16)?)),
    }
}

pub(crate) fn written_answer(alloc: Global, answer: Option<Answer>) -> Result<String> {
    match answer {
        None => word(alloc, "nothing"),
        Some(Answer::NoAddress) => word(alloc, "no address"),
        Some(Answer::Address(address)) => Ok(format!(in alloc; "{address:08x}")?),
        Some(Answer::Address6(address)) => Ok(format!(in alloc; "{address:032x}")?),
    }
}

/// What a message answers for a number and a name.
pub(crate) fn answer(alloc: Global, fields: &[&str]) -> Result<String> {
    let [number, name, message @ ..] = fields else {
        bail!("a number, a name and a message");
    };
    let message = message_in(alloc, message)?;
    let answer = read_reply(&message, number_in(number)?, &name_in(alloc, name)?);
    written_answer(alloc, answer)
}

/// Whether a message is the truncated response to the question with a number and a name.
pub(crate) fn is_truncated(alloc: Global, fields: &[&str]) -> Result<String> {
    let [number, name, message @ ..] = fields else {
        bail!("a number, a name and a message");
    };
    let message = message_in(alloc, message)?;
    let cut = truncated(&message, number_in(number)?, &name_in(alloc, name)?);
    Ok(format!(in alloc; "{cut}")?)
}

/// The octets of a message of so many, and the one behind them.
fn written_message(alloc: Global, buffer: &[u8], length: usize) -> Result<String> {
    match buffer.get(..length.saturating_add(1)) {
        Some(octets) => written_octets(alloc, octets),
        None => bail!("a message of {length} octets"),
    }
}

pub(crate) fn written_reply(alloc: Global, fields: &[&str]) -> Result<String> {
    let [number, name, answer] = fields else {
        bail!("a number, a name and an answer");
    };
    let mut buffer = FILLED;
    let name = name_in(alloc, name)?;
    let length = write_reply(&mut buffer, number_in(number)?, &name, answer_in(answer)?);
    written_message(alloc, &buffer, length)
}

pub(crate) fn written_question(alloc: Global, fields: &[&str]) -> Result<String> {
    let [number, name] = fields else {
        bail!("a number and a name");
    };
    let mut buffer = FILLED;
    let length = write_query(&mut buffer, number_in(number)?, &name_in(alloc, name)?);
    written_message(alloc, &buffer, length)
}

/// The number and the name that a message asks.
pub(crate) fn question(alloc: Global, fields: &[&str]) -> Result<String> {
    match read_query(&message_in(alloc, fields)?) {
        None => word(alloc, "nothing"),
        Some((number, name)) => {
            let name = written_name(alloc, &name)?;
            Ok(format!(in alloc; "{number:04x} {}", name.as_str())?)
        }
    }
}
