//! Times the layers, for `bench/run`: `pac_bench PART WORD..` does the work of a part and writes what came of it.
//!
//! A part is a module with a function `run`, which takes the words behind the part's name. It stands on the crates that
//! it times. Its calls are safe and return; nothing else is promised of it.
#![tactic(auto)]

mod heap;
mod lexing;
mod messages;
mod scopes;

use anyhow::{Result, bail};
use std::env;

fn main(rt: HostRuntime) -> Result<()> {
    let words: Vec<String> = env::args(&rt)?.collect(rt.alloc())?;
    let [_program, part, words @ ..] = words.as_slice() else {
        bail!("usage: pac_bench lexing|heap|messages|scopes WORD..");
    };
    match part.as_str() {
        "lexing" => lexing::run(&rt, words),
        "heap" => heap::run(&rt, words),
        "messages" => messages::run(&rt, words),
        "scopes" => scopes::run(&rt, words),
        _ => bail!("lexing, heap, messages or scopes"),
    }
}
