// Texts with a separator between them.
use crate::texts::text_of_length;
use crate::{in_quotes, word};
use anyhow::{Context, Result, bail};
use array_builtins::{JoinAnswer, join_texts};
use case_rows::Sample;
use std::alloc::Global;
use utf16_text::{Text, TextList};

/// The most units of a text that is written, and not told by their number.
const WRITTEN: usize = 100;

/// The texts of all fields but the first, with that of the first between them.
pub(crate) fn joined(alloc: Global, fields: &[&str]) -> Result<String> {
    let (separator, fields) = fields.split_first().context("a separator and texts")?;
    let separator = text_in(alloc, separator)?;
    let mut texts = TextList::new(alloc);
    for field in fields {
        texts.push(alloc, text_in(alloc, field)?)?;
    }
    match join_texts(alloc, &texts, &separator) {
        Ok(text) => written(alloc, &text),
        Err(JoinAnswer::TooLong) => word(alloc, "TooLong"),
        Err(JoinAnswer::Memory) => word(alloc, "Memory"),
    }
}

/// A text in quotes, or one of so many units.
fn text_in(alloc: Global, field: &str) -> Result<Text> {
    if let Some(units) = field.strip_suffix(" units") {
        return text_of_length(alloc, units);
    }
    match Sample::read(alloc, field)? {
        Sample::Text(text) => Ok(text),
        _ => bail!("a text"),
    }
}

fn written(alloc: Global, text: &Text) -> Result<String> {
    if text.len() > WRITTEN {
        return Ok(format!(in alloc; "{} units", text.len())?);
    }
    in_quotes(alloc, text)
}
