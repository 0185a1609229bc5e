// Parts in parts, at the limit of nesting.
use crate::reading;
use anyhow::{Result, bail};
use std::alloc::Global;

/// So many of a front, the middle, then as many of a back.
fn nested(alloc: Global, count: usize, front: &str, middle: &str, back: &str) -> Result<String> {
    let mut source = String::new(alloc);
    push_times(&mut source, front, count)?;
    source.push_str(middle)?;
    push_times(&mut source, back, count)?;
    Ok(source)
}

fn push_times(source: &mut String, piece: &str, count: usize) -> Result<()> {
    for _piece in 0..count {
        source.push_str(piece)?;
    }
    Ok(())
}

/// What comes of a middle in so many fronts and backs.
pub(crate) fn outcome(alloc: Global, fields: &[&str]) -> Result<String> {
    let [count, front, middle, back] = fields else {
        bail!("a count, a front, a middle and a back");
    };
    let source = nested(alloc, count.parse::<usize>()?, front, middle, back)?;
    reading::outcome(alloc, source.as_str())
}

/// What comes of a part in so many blocks, and in one less.
pub(crate) fn outcomes_at_limit(alloc: Global, fields: &[&str]) -> Result<String> {
    let [count, part] = fields else {
        bail!("a count of blocks and a part");
    };
    let count = count.parse::<usize>()?;
    let source = nested(alloc, count, "{", part, "}")?;
    let at_limit = reading::outcome(alloc, source.as_str())?;
    let source = nested(alloc, count.saturating_sub(1), "{", part, "}")?;
    let below = reading::outcome(alloc, source.as_str())?;
    Ok(format!(in alloc; "{}, {}", at_limit.as_str(), below.as_str())?)
}

/// What comes of a script that ends behind so many `{`.
pub(crate) fn outcome_at_end(alloc: Global, fields: &[&str]) -> Result<String> {
    let [count, last] = fields else {
        bail!("a count of blocks and what stands in the last");
    };
    let source = nested(alloc, count.parse::<usize>()?, "{", last, "")?;
    reading::outcome(alloc, source.as_str())
}
