//! What scripts come to: values, results and faults with their places: a table of scripts.
//!
//! The rows are written from ECMA-262 edition 5.1, sections 8 to 13, 15 and B.2.3, and from the page on the Netscape
//! Navigator Proxy Auto-Config format, as the profile in docs/LANGUAGE.md has them. Each script is run twice over fresh
//! hosts, and must come to the same: how it ends, the names that it asks and the alerts that are kept, or each call
//! that it makes of its host, in their order. A script of the part `images` is run from an image of its load too, where
//! it has one, and must come to the same as without it. In each run it is Tuesday, 14 November 2023, 22:13:20 in GMT,
//! and five hours later in the zone, where no other moment is named; the machine is 192.168.1.10. It reads the rows from
//! its input, and stands on js_parser, js_scope and js_interp.
#![tactic(auto)]

mod answers;
mod images;
mod noting_host;
mod scripts;
mod surroundings;

use anyhow::{Result, bail};
use images::image_and_end;
use scripts::{calls_of_host, counted, outcome, outcome_of_known};
use std::alloc::Global;

/// How much fuel a script has where its row doesn't say it.
const FUEL: u64 = 10_000_000;

fn main(rt: HostRuntime) -> Result<()> {
    case_rows::run(&rt, answer)
}

fn answer(alloc: Global, part: &str, fields: &[&str]) -> Result<String> {
    match part {
        "values" | "natives" | "left out" => value(alloc, fields),
        "bodies" | "limits" => outcome(alloc, with_body(alloc, fields)?.as_str(), FUEL),
        "unknown names" => outcome_of_known(alloc, with_body(alloc, fields)?.as_str(), FUEL),
        "scripts" => outcome(alloc, only(fields)?, FUEL),
        "counts" => counted(alloc, only(fields)?, FUEL),
        "fuel" => fueled(alloc, fields),
        "repeated" => repeated(alloc, fields),
        "calls of the host" => calls(alloc, fields),
        "images" => imaged(alloc, fields),
        _ => bail!("no part {part}"),
    }
}

/// The type and the text of an expression's value.
fn value(alloc: Global, fields: &[&str]) -> Result<String> {
    let expression = only(fields)?;
    let script = format!(in alloc;
        "function FindProxyForURL() {{ var v = {expression}; return typeof v + ' ' + v; }}"
    )?;
    outcome(alloc, script.as_str(), FUEL)
}

/// A script whose function has these statements as its body.
fn with_body(alloc: Global, fields: &[&str]) -> Result<String> {
    let statements = only(fields)?;
    Ok(format!(in alloc; "function FindProxyForURL(url, host) {{ {statements} }}")?)
}

fn only<'a>(fields: &[&'a str]) -> Result<&'a str> {
    match fields {
        [field] => Ok(*field),
        _ => bail!("one field"),
    }
}

/// A script with so much fuel.
fn fueled(alloc: Global, fields: &[&str]) -> Result<String> {
    let [script, fuel] = fields else {
        bail!("a script and fuel");
    };
    outcome(alloc, script, fuel.parse::<u64>()?)
}

/// A script that is loaded for many runs, with so much fuel where its row says it.
fn imaged(alloc: Global, fields: &[&str]) -> Result<String> {
    match fields {
        [script] => image_and_end(alloc, script, FUEL),
        [script, fuel] => image_and_end(alloc, script, fuel.parse::<u64>()?),
        _ => bail!("a script, and perhaps fuel"),
    }
}

/// The calls that a script makes of a host that knows these names.
fn calls(alloc: Global, fields: &[&str]) -> Result<String> {
    let [script, known] = fields else {
        bail!("a script and names");
    };
    calls_of_host(alloc, script, known, FUEL)
}

/// A script in which `@` stands for so many copies of a piece.
fn repeated(alloc: Global, fields: &[&str]) -> Result<String> {
    let [script, piece, count] = fields else {
        bail!("a script, a piece and a count");
    };
    let (before, behind) = match script.split_once('@') {
        Some(parts) => parts,
        None => bail!("a place for the pieces"),
    };
    let mut whole = String::from_str(alloc, before)?;
    for _ in 0..count.parse::<u32>()? {
        whole.push_str(piece)?;
    }
    whole.push_str(behind)?;
    outcome(alloc, whole.as_str(), FUEL)
}
