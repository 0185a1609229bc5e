//! Where each name of a script stands: a table of scripts, each with the bounds of its names.
//!
//! It reads the table from its input, and tells which rows do not hold. The rows are written from ECMA-262 edition 5.1,
//! sections 10.2, 10.5, 12.14 and 13. It stands on js_parser and js_scope.
#![tactic(auto)]

mod listing;
mod parts;

use crate::listing::listing;
use anyhow::{Context, Result, bail, ensure};
use js_parser::read_script;
use js_scope::resolve;
use std::alloc::Global;
use utf16_text::Text;

/// The program of a script, in one line.
fn resolved(alloc: Global, source: &str) -> Result<String> {
    let text = Text::from_str(alloc, source)?;
    ensure!(
        text.len() <= 1_048_576,
        "a script of at most 1,048,576 units"
    );
    let Ok(script) = read_script(alloc, &text) else {
        bail!("a script that the parser reads");
    };
    let program = resolve(alloc, script).context("memory")?;
    listing(alloc, &program)
}

/// Whether a row holds; where it does not, its line is told.
fn holds(rt: &(impl AllocGlobal + Print), row: &str) -> Result<bool> {
    let (script, wanted) = row
        .split_once(" =>")
        .context("a script and what it comes to")?;
    let came = resolved(rt.alloc(), script)?;
    if came.as_str() != wanted {
        println!(rt; "{script}: wanted{wanted}, came{}", came.as_str())?;
    }
    Ok(came.as_str() == wanted)
}

fn main(rt: HostRuntime) -> Result<()> {
    let mut rows = 0u64;
    let mut held = 0u64;
    for line in rt.lines(rt.alloc()) {
        let line = line?;
        if line.is_empty() || line.as_str().starts_with('#') {
            continue;
        }
        rows = rows.saturating_add(1);
        if holds(&rt, line.as_str())? {
            held = held.saturating_add(1);
        }
    }
    println!(rt; "{held} of {rows} rows hold")?;
    ensure!(held == rows, "a row does not hold");
    Ok(())
}
