// Values in fields.
use crate::escape::text;
use anyhow::{Context, Result};
use std::alloc::Global;
use utf16_text::Text;
use whole_number::Whole;

/// A value: `undefined`, `null`, `true`, `false`, `object` and its number, a text in single quotes, or a whole number.
#[derive(Drop)]
pub enum Sample {
    Undefined,
    Null,
    Truth(bool),
    Object(u32),
    Text(Text),
    Number(Whole),
}

impl Sample {
    pub fn read(alloc: Global, field: &str) -> Result<Sample> {
        if let Some(number) = field.strip_prefix("object ") {
            return Ok(Sample::Object(number.parse::<u32>()?));
        }
        if let Some(written) = in_quotes(field) {
            return Ok(Sample::Text(text(alloc, written)?));
        }
        match field {
            "undefined" => Ok(Sample::Undefined),
            "null" => Ok(Sample::Null),
            "true" => Ok(Sample::Truth(true)),
            "false" => Ok(Sample::Truth(false)),
            _ => Ok(Sample::Number(number_in(field)?)),
        }
    }
}

fn in_quotes(field: &str) -> Option<&str> {
    field.strip_prefix('\'')?.strip_suffix('\'')
}

fn number_in(field: &str) -> Result<Whole> {
    Whole::new(field.parse::<i64>().context("a value")?).context("a whole number")
}

/// The values of some fields.
pub fn samples(alloc: Global, fields: &[&str]) -> Result<Vec<Sample>> {
    let mut all = Vec::new(alloc);
    for field in fields {
        all.push(Sample::read(alloc, field)?)?;
    }
    Ok(all)
}
