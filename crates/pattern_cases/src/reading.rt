// What patterns are read as.
use crate::trees;
use anyhow::{Result, bail};
use js_pattern::{Flags, Pattern};
use js_pattern_reader::{PatternAnswer, read_pattern};
use std::alloc::Global;
use utf16_text::Text;

/// The pattern of a body and flags, which may be left out, or its refusal.
pub(crate) fn outcome(alloc: Global, fields: &[&str]) -> Result<String> {
    match fields {
        [body] => written(alloc, body, ""),
        [body, flags] => written(alloc, body, flags),
        _ => bail!("a body and flags"),
    }
}

fn written(alloc: Global, body: &str, flags: &str) -> Result<String> {
    let body = case_rows::text(alloc, body)?;
    let flags = case_rows::text(alloc, flags)?;
    match read(alloc, &body, &flags)? {
        Ok(pattern) => described(alloc, &pattern),
        Err(refusal) => Ok(String::from_str(alloc, refusal)?),
    }
}

/// A pattern, or the name of its refusal.
pub(crate) fn read(
    alloc: Global,
    body: &Text,
    flags: &Text,
) -> Result<Result<Pattern, &'static str>> {
    match read_pattern(alloc, body, flags) {
        Ok(pattern) => Ok(Ok(pattern)),
        Err(PatternAnswer::Bad) => Ok(Err("Bad")),
        Err(PatternAnswer::Unsupported) => Ok(Err("Unsupported")),
        Err(PatternAnswer::Memory) => bail!("out of memory"),
    }
}

/// Its tree, then `, N groups` and its flags, where there are such.
fn described(alloc: Global, pattern: &Pattern) -> Result<String> {
    let mut line = trees::described(alloc, pattern.root())?;
    match pattern.groups() {
        0 => {}
        1 => line.push_str(", 1 group")?,
        count => line.push_str(format!(in alloc; ", {count} groups")?.as_str())?,
    }
    let Flags {
        global,
        ignore_case,
        multiline,
    } = pattern.flags();
    for (set, flag) in [(global, ", g"), (ignore_case, ", i"), (multiline, ", m")] {
        if set {
            line.push_str(flag)?;
        }
    }
    Ok(line)
}
