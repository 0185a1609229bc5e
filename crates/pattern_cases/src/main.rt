//! The patterns of bodies and flags, and where they are refused: a table of patterns.
//!
//! The cases are those of ECMA-262 edition 5.1, section 15.10.1, with the limits of js_pattern_reader. It reads them
//! from its input, and stands on js_pattern_reader.
#![tactic(auto)]

mod nesting;
mod reading;
mod trees;

use anyhow::{Result, bail};
use std::alloc::Global;

fn main(rt: HostRuntime) -> Result<()> {
    case_rows::run(&rt, answer)
}

fn answer(alloc: Global, part: &str, fields: &[&str]) -> Result<String> {
    match part {
        "trees" | "flags" | "refused" | "first refusals" => reading::outcome(alloc, fields),
        "edges" => nesting::outcome(alloc, fields),
        _ => bail!("no part {part}"),
    }
}
