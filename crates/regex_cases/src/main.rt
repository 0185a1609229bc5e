//! Searches for patterns of regular expressions: a table of matches with their groups, and of what they cost.
//!
//! The matches are those of ECMA-262 edition 5.1, section 15.10.2, without lookahead. It reads the rows from its input,
//! and stands on js_regex.
#![tactic(auto)]

use anyhow::{Result, bail, ensure};
use js_regex::{FindAnswer, Match, Pattern, find, read_pattern};
use std::alloc::Global;
use utf16_text::Text;

// More fuel than a row needs.
const AMPLE: u64 = 1_000_000;

fn main(rt: HostRuntime) -> Result<()> {
    case_rows::run(&rt, answer)
}

fn answer(alloc: Global, part: &str, fields: &[&str]) -> Result<String> {
    let [body, flags, text, rest @ ..] = fields else {
        bail!("a body, flags and a text");
    };
    let pattern = pattern_of(alloc, body, flags)?;
    let text = case_rows::text(alloc, text)?;
    match part {
        "matches" => matched(alloc, &pattern, &text, rest),
        "costs" => matched_at_cost(alloc, &pattern, &text),
        "fuel" => matched_with_fuel(alloc, &pattern, &text, rest),
        _ => bail!("no part {part}"),
    }
}

fn pattern_of(alloc: Global, body: &str, flags: &str) -> Result<Pattern> {
    let body = case_rows::text(alloc, body)?;
    let flags = case_rows::text(alloc, flags)?;
    Ok(read_pattern(alloc, &body, &flags)?)
}

/// The first match from a place on, which is 0 where the row has none.
fn matched(alloc: Global, pattern: &Pattern, text: &Text, rest: &[&str]) -> Result<String> {
    let from = match rest {
        [] => 0,
        [from, ..] => from.parse::<usize>()?,
    };
    ensure!(from <= text.len(), "no place {from} in the text");
    let mut fuel = AMPLE;
    written(alloc, find(alloc, pattern, text, from, &mut fuel)?)
}

/// The first match, and what the search took from the fuel.
fn matched_at_cost(alloc: Global, pattern: &Pattern, text: &Text) -> Result<String> {
    let mut fuel = AMPLE;
    let found = written(alloc, find(alloc, pattern, text, 0, &mut fuel)?)?;
    let cost = AMPLE.saturating_sub(fuel);
    Ok(format!(in alloc; "{} costs {cost}", found.as_str())?)
}

/// The first match and what is left of the fuel, or `spent` where there is too little of it.
fn matched_with_fuel(
    alloc: Global,
    pattern: &Pattern,
    text: &Text,
    rest: &[&str],
) -> Result<String> {
    let [fuel] = rest else {
        bail!("fuel");
    };
    let mut fuel = fuel.parse::<u64>()?;
    match find(alloc, pattern, text, 0, &mut fuel) {
        Err(FindAnswer::Spent) => Ok(String::from_str(alloc, "spent")?),
        Err(FindAnswer::Memory) => bail!("out of memory"),
        Ok(found) => {
            let found = written(alloc, found)?;
            Ok(format!(in alloc; "{}, {fuel} left", found.as_str())?)
        }
    }
}

/// The places of a match and of each group, or `none`.
fn written(alloc: Global, found: Option<Match>) -> Result<String> {
    let Some(found) = found else {
        return Ok(String::from_str(alloc, "none")?);
    };
    let mut places = format!(in alloc; "{}..{}", found.from, found.to)?;
    for group in found.groups.as_slice() {
        match group {
            None => places.push_str(" unset")?,
            Some(span) => places.push_str(format!(in alloc;
                " {}..{}",
                span.from, span.to
            )?.as_str())?,
        }
    }
    Ok(places)
}
