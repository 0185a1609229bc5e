//! Streams of messages at their edges: a table with the values of RFC 1035 (section 4.2.2).
//!
//! It reads the rows from its input, and stands on dns_stream.
#![tactic(auto)]

mod frames;
mod streams;

use anyhow::{Result, bail};
use std::alloc::Global;

fn main(rt: HostRuntime) -> Result<()> {
    case_rows::run(&rt, answer)
}

fn answer(alloc: Global, part: &str, fields: &[&str]) -> Result<String> {
    match part {
        "streams" => streams::messages(alloc, fields),
        "repeated streams" => streams::repeated(alloc, fields),
        "written frames" => frames::written(alloc, fields),
        _ => bail!("no part {part}"),
    }
}
