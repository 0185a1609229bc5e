// Files of names.
use answer_table::AnswerTable;
use anyhow::{Context, Result, bail};
use batch_text::{NamesAnswer, read_names, read_told_names};
use case_rows::octets;
use pac_names::{Answer, LookupName, NameKind};
use std::alloc::Global;

/// What a file tells of some names, or the line that is refused.
pub(crate) fn told(alloc: Global, fields: &[&str]) -> Result<String> {
    let (file, names) = fields.split_first().context("a file")?;
    told_of(alloc, &octets(alloc, file)?, names)
}

/// The same of so many copies of a line, with another line behind them.
pub(crate) fn told_behind(alloc: Global, fields: &[&str]) -> Result<String> {
    let [line, times, last, names @ ..] = fields else {
        bail!("a line, how many times it stands, and the last line");
    };
    let line = octets(alloc, line)?;
    let mut file = Vec::new(alloc);
    for _ in 0..times.parse::<u32>()? {
        file.extend_from_slice(&line)?;
    }
    file.extend_from_slice(&octets(alloc, last)?)?;
    told_of(alloc, &file, names)
}

/// What a file whose names are told whole tells of some names, or the line that is refused.
pub(crate) fn told_whole(alloc: Global, fields: &[&str]) -> Result<String> {
    let (file, names) = fields.split_first().context("a file")?;
    let file = octets(alloc, file)?;
    if file.len() > 1_048_576 {
        bail!("a file of at most 1,048,576 bytes");
    }
    table_of(alloc, read_told_names(alloc, &file), names)
}

fn told_of(alloc: Global, file: &[u8], names: &[&str]) -> Result<String> {
    if file.len() > 1_048_576 {
        bail!("a file of at most 1,048,576 bytes");
    }
    table_of(alloc, read_names(alloc, file), names)
}

fn table_of(
    alloc: Global,
    read: Result<AnswerTable, NamesAnswer>,
    names: &[&str],
) -> Result<String> {
    match read {
        Ok(table) => answers(alloc, &table, names),
        Err(NamesAnswer::Refused(kind, line)) => Ok(format!(in alloc; "{line} {kind:?}")?),
        Err(NamesAnswer::Memory) => bail!("want of memory"),
    }
}

fn answers(alloc: Global, table: &AnswerTable, names: &[&str]) -> Result<String> {
    let mut told = String::new(alloc);
    for name in names {
        if !told.is_empty() {
            told.push_str(", ")?;
        }
        told.push_str(&written(alloc, table.get(&name_in(name)?))?)?;
    }
    Ok(told)
}

fn written(alloc: Global, answer: Option<Answer>) -> Result<String> {
    Ok(match answer {
        Some(Answer::Address(address)) => format!(in alloc; "{address}")?,
        Some(Answer::Address6(address)) => format!(in alloc; "{address:032x}")?,
        Some(Answer::NoAddress) => String::from_str(alloc, "no address")?,
        None => String::from_str(alloc, "nothing")?,
    })
}

/// The name that a row writes, with the type AAAA behind it where its IPv6 address is asked.
pub(crate) fn name_in(field: &str) -> Result<LookupName> {
    let (kind, text) = match field.strip_suffix(" AAAA") {
        Some(text) => (NameKind::V6, text),
        None => (NameKind::V4, field),
    };
    let name = LookupName::from_bytes(text.as_bytes()).context("a lookup name")?;
    Ok(name.with_kind(kind))
}
