// Patterns of many parts, at the edges of what is read.
use crate::reading;
use anyhow::{Result, bail};
use std::alloc::Global;
use utf16_text::Text;

/// What comes of so many fronts, a middle and as many backs: how many groups are kept, or the refusal.
pub(crate) fn outcome(alloc: Global, fields: &[&str]) -> Result<String> {
    let [count, front, middle, back] = fields else {
        bail!("a count, a front, a middle and a back");
    };
    let count = count.parse::<usize>()?;
    let mut body = String::new(alloc);
    push_times(&mut body, front, count)?;
    body.push_str(middle)?;
    push_times(&mut body, back, count)?;
    let body = case_rows::text(alloc, body.as_str())?;
    let flags = Text::from_units(alloc, &[])?;
    match reading::read(alloc, &body, &flags)? {
        Ok(pattern) => Ok(format!(in alloc; "{} groups", pattern.groups())?),
        Err(refusal) => Ok(String::from_str(alloc, refusal)?),
    }
}

fn push_times(body: &mut String, piece: &str, count: usize) -> Result<()> {
    for _piece in 0..count {
        body.push_str(piece)?;
    }
    Ok(())
}
