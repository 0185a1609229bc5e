// The moves of a link.
use crate::messages::question_in;
use anyhow::Result;
use pac_ports::{Move, MoveList, Which};
use std::alloc::Global;

/// How moves are written.
#[derive(Clone, Copy)]
pub(crate) enum Form {
    /// `first:NAME/NUMBER` or `second:NAME/NUMBER` for a question, by its server, `frame:NAME/NUMBER` for one with its
    /// length before it over the stream, and `broken:NAME/NUMBER` where that ended at it, each with `other` for what is
    /// none, and `:AAAA` behind a name that asks for IPv6 addresses; `given`, `tick`, `piece:N` for so many octets of
    /// the stream, and `end` for its end. Each stands behind a blank; behind those that come more than once in a row
    /// stands `*` and their count.
    Questions,
    /// The same without names, numbers and lengths, each with how often it comes in a row, and each before a blank.
    Kinds,
}

pub(crate) fn written(alloc: Global, form: Form, moves: &MoveList) -> Result<String> {
    let mut text = String::new(alloc);
    let mut last = String::new(alloc);
    let mut count = 0u64;
    for at in 0..moves.len() {
        let word = word_of(alloc, form, moves.at(at))?;
        if word != last {
            push_row(alloc, form, &mut text, &last, count)?;
            count = 0;
        }
        last = word;
        count = count.saturating_add(1);
    }
    push_row(alloc, form, &mut text, &last, count)?;
    Ok(text)
}

fn word_of(alloc: Global, form: Form, made: &Move) -> Result<String> {
    match made {
        Move::Sent(Which::First, octets) => asked(alloc, form, "first", octets.as_slice()),
        Move::Sent(Which::Second, octets) => asked(alloc, form, "second", octets.as_slice()),
        Move::Given(_) => Ok(String::from_str(alloc, "given")?),
        Move::Tick => Ok(String::from_str(alloc, "tick")?),
        Move::StreamSent(octets) => asked(alloc, form, "frame", unframed(octets.as_slice())),
        Move::StreamFailed(octets) => asked(alloc, form, "broken", unframed(octets.as_slice())),
        Move::Piece(octets) => piece(alloc, form, octets.as_slice().len()),
        Move::StreamEnd => Ok(String::from_str(alloc, "end")?),
    }
}

fn asked(alloc: Global, form: Form, how: &str, octets: &[u8]) -> Result<String> {
    match form {
        Form::Kinds => Ok(String::from_str(alloc, how)?),
        Form::Questions => match question_in(alloc, octets)? {
            Some(question) => Ok(format!(in alloc; "{how}:{question}")?),
            None => Ok(format!(in alloc; "{how}:other")?),
        },
    }
}

fn piece(alloc: Global, form: Form, length: usize) -> Result<String> {
    match form {
        Form::Kinds => Ok(String::from_str(alloc, "piece")?),
        Form::Questions => Ok(format!(in alloc; "piece:{length}")?),
    }
}

// The message of a frame; nothing where its length is another one.
fn unframed(frame: &[u8]) -> &[u8] {
    match frame {
        [high, low, message @ ..]
            if usize::from(u16::from_be_bytes([*high, *low])) == message.len() => { message }
        _ => &[],
    }
}

fn push_row(alloc: Global, form: Form, text: &mut String, word: &str, count: u64) -> Result<()> {
    match (form, count) {
        (_, 0) => {}
        (Form::Kinds, _) => text.push_str(&format!(in alloc; "{word} {count} ")?)?,
        (Form::Questions, 1) => text.push_str(&format!(in alloc; " {word}")?)?,
        (Form::Questions, _) => text.push_str(&format!(in alloc; " {word}*{count}")?)?,
    }
    Ok(())
}
