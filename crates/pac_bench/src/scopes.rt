// A script, read and then resolved.
use anyhow::{Context, Result, bail, ensure};
use js_parser::read_script;
use js_scope::resolve;
use std::fs;
use std::time::Instant;
use utf16_text::{LONGEST_FILE, Text};

/// The word is a script's file. It writes the number of its functions, and the nanoseconds that reading and resolving
/// took.
pub fn run(rt: &HostRuntime, words: &[String]) -> Result<()> {
    let [file] = words else {
        bail!("usage: pac_bench scopes SCRIPT");
    };
    let bytes = fs::read(rt, file.as_str())?;
    let source = Text::from_bytes(rt.alloc(), &bytes)?;
    ensure!(source.len() <= LONGEST_FILE, "a script within its limit");
    let start = Instant::now(rt)?;
    let Ok(script) = read_script(rt.alloc(), &source) else {
        bail!("a script that the parser reads");
    };
    let reading = start.elapsed(rt)?.as_nanos();
    let start = Instant::now(rt)?;
    let program = resolve(rt.alloc(), script).context("memory")?;
    let resolving = start.elapsed(rt)?.as_nanos();
    println!(rt;
        "{} functions, {reading} nanoseconds to read, {resolving} to resolve",
        program.functions.len()
    )?;
    Ok(())
}
