// What `resolve` and `map` write of URLs and batches, and what is sent.
use crate::calls::status_of;
use crate::moves::{self, Form};
use crate::network::Network;
use anyhow::{Context, Result, bail, ensure};
use case_rows::{octets, written_octets};
use pac_command::Status;
use pac_ports::{MemoryFiles, MemorySink};
use std::alloc::Global;

pub(crate) fn url(alloc: Global, fields: &[&str]) -> Result<String> {
    let [script, words, dice, coming] = fields else {
        bail!("a script, words, the numbers of the dice, and what comes");
    };
    let mut files = MemoryFiles::new(alloc);
    add(alloc, &mut files, "s.pac", script)?;
    over(alloc, words, &mut files, dice, coming)
}

pub(crate) fn batch(alloc: Global, fields: &[&str]) -> Result<String> {
    let [script, batch, words, dice, coming] = fields else {
        bail!("a script, a batch, words, the numbers of the dice, and what comes");
    };
    let mut files = MemoryFiles::new(alloc);
    add(alloc, &mut files, "s.pac", script)?;
    add(alloc, &mut files, "b", batch)?;
    over(alloc, words, &mut files, dice, coming)
}

// No call of the link is made: the first one would fail.
pub(crate) fn map(alloc: Global, fields: &[&str]) -> Result<String> {
    let [script, names, batch, words] = fields else {
        bail!("a script, a names file, a batch and words");
    };
    let mut files = files_of(alloc, script, names, batch)?;
    over(alloc, words, &mut files, "0", "fails:1")
}

/// Files of which a call fails, and a sink that takes at most a step of each piece and of which a call fails; 0 is
/// none.
pub(crate) fn failing(alloc: Global, fields: &[&str]) -> Result<String> {
    let [script, names, batch, words, coming, reading, step, writing] = fields else {
        bail!("three files, words, what comes, the files' call, a step and the sink's call");
    };
    let mut files = files_of(alloc, script, names, batch)?;
    files.fail_at(alloc, reading.parse::<u64>()?)?;
    let step = step.parse::<usize>()?;
    ensure!(step > 0, "a step");
    let mut out = MemorySink::with_step(alloc, 1000, step)?;
    out.fail_at(alloc, writing.parse::<u64>()?)?;
    told_of(alloc, words, &mut files, &mut out, "4660", coming)
}

/// A script, a names file and a batch.
fn files_of(alloc: Global, script: &str, names: &str, batch: &str) -> Result<MemoryFiles> {
    let mut files = MemoryFiles::new(alloc);
    add(alloc, &mut files, "s.pac", script)?;
    add(alloc, &mut files, "n", names)?;
    add(alloc, &mut files, "b", batch)?;
    Ok(files)
}

/// Adds the octets that a field writes.
fn add(alloc: Global, files: &mut MemoryFiles, name: &str, field: &str) -> Result<()> {
    files.add(alloc, name, &octets(alloc, field)?)?;
    Ok(())
}

/// What is told of words over files, numbers of the dice, and what comes over the link.
fn over(
    alloc: Global,
    words: &str,
    files: &mut MemoryFiles,
    dice: &str,
    coming: &str,
) -> Result<String> {
    let mut out = MemorySink::new(alloc, 100_000)?;
    told_of(alloc, words, files, &mut out, dice, coming)
}

/// The same, with a sink.
fn told_of(
    alloc: Global,
    words: &str,
    files: &mut MemoryFiles,
    out: &mut MemorySink,
    dice: &str,
    coming: &str,
) -> Result<String> {
    let mut network = Network::new(alloc, dice, coming)?;
    told_over(alloc, words, files, out, &mut network)
}

/// The status, what is written, and the moves of the link.
fn told_over(
    alloc: Global,
    words: &str,
    files: &mut MemoryFiles,
    out: &mut MemorySink,
    network: &mut Network,
) -> Result<String> {
    let status = status_of(alloc, words, files, out, network)?;
    let text = written_octets(alloc, out.bytes())?;
    let moves = moves::written(alloc, Form::Questions, network.log())?;
    Ok(format!(in alloc; "{status:?} '{text}' |{moves}")?)
}

// A batch of one line so many times, and of a last line.
pub(crate) fn counted(alloc: Global, fields: &[&str]) -> Result<String> {
    let [count, line, last] = fields else {
        bail!("a count, a line and a last line");
    };
    let mut batch = repeated(alloc, &octets(alloc, line)?, count.parse::<u32>()?)?;
    batch.extend_from_slice(&octets(alloc, last)?)?;
    let mut out = MemorySink::new(alloc, 100_000)?;
    let status = status_of_batch(alloc, &batch, &mut out)?;
    lines_told(alloc, status, out.bytes())
}

fn repeated(alloc: Global, piece: &[u8], count: u32) -> Result<Vec<u8>> {
    let mut all = Vec::new(alloc);
    for _turn in 0..count {
        all.extend_from_slice(piece)?;
    }
    Ok(all)
}

/// The status of a batch whose URLs go DIRECT.
fn status_of_batch(alloc: Global, batch: &[u8], out: &mut MemorySink) -> Result<Status> {
    let script = b"function FindProxyForURL(url, host) { return \"DIRECT\"; }";
    let mut files = MemoryFiles::new(alloc);
    files.add(alloc, "s.pac", script)?;
    files.add(alloc, "b", batch)?;
    let mut network = Network::new(alloc, "0", "fails:1")?;
    status_of(
        alloc,
        "resolve s.pac --batch b",
        &mut files,
        out,
        &mut network,
    )
}

/// A status, and how many lines are written, with the last one.
fn lines_told(alloc: Global, status: Status, bytes: &[u8]) -> Result<String> {
    let text = std::str::from_utf8(bytes).ok().context("a text")?;
    let lines = text.lines().count();
    let last = text.lines().last().unwrap_or("");
    Ok(format!(in alloc; "{status:?} {lines} lines, the last '{last}'")?)
}
