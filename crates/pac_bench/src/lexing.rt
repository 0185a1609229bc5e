// The tokens of a script, read so often.
ghost use Rattle.std.specs.Prelude.{◌≤◌, length};
ghost use Rattle.utf16_text.specs.declared.limits.TheConstants.{LONGEST_FILE};

use anyhow::{Context, Result, bail, ensure};
use js_lexer::lex;
use std::alloc::Global;
use std::fs;
use std::time::Instant;
use utf16_text::{LONGEST_FILE, Text};

/// The words are a script's file and a count. It writes the number of tokens in all, and the nanoseconds that they
/// took.
pub fn run(rt: &HostRuntime, words: &[String]) -> Result<()> {
    let [file, count] = words else {
        bail!("usage: pac_bench lexing SCRIPT COUNT");
    };
    let count = count.parse::<u32>().context("a count")?;
    let bytes = fs::read(rt, file.as_str())?;
    let source = Text::from_bytes(rt.alloc(), &bytes)?;
    ensure!(source.len() <= LONGEST_FILE, "a script within its limit");
    let start = Instant::now(rt)?;
    let tokens = lexed(rt.alloc(), &source, count)?;
    let nanoseconds = start.elapsed(rt)?.as_nanos();
    println!(rt; "{tokens} tokens, {nanoseconds} nanoseconds")?;
    Ok(())
}

// The sum of the numbers of tokens, after lexing so often.
fn lexed(alloc: Global, source: &Text, count: u32) -> Result<u64>
    requires { length source.now ≤ LONGEST_FILE }
{
    let mut sum = 0u64;
    for _turn in 0..count {
        match lex(alloc, source) {
            Ok(lexed) => sum = sum.saturating_add(lexed.tokens.len() as u64),
            Err(_) => bail!("a script that the lexer reads"),
        }
    }
    Ok(sum)
}
