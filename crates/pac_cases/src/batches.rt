// Batches.
use anyhow::{Result, bail, ensure};
use batch_text::{Batch, BatchAnswer, BatchLine, View, read_batch};
use case_rows::{octets, written_text};
use proxy_list::{Proxy, write_entry};
use std::alloc::Global;

/// The moment before the first line `at`.
const START: i64 = 1_000;

/// The URLs of a batch, each behind its moment and before its host, and how proxies fared; or the line that is refused.
pub(crate) fn asked(alloc: Global, fields: &[&str]) -> Result<String> {
    let [file] = fields else {
        bail!("a batch");
    };
    let file = octets(alloc, file)?;
    ensure!(
        file.len() <= 1_048_576,
        "a batch of at most 1,048,576 bytes"
    );
    match read_batch(alloc, &file, START) {
        Ok(batch) => written(alloc, &batch),
        Err(answer) => refused(alloc, answer),
    }
}

/// How many URLs so many copies of a line ask for, with another line behind them.
pub(crate) fn counted(alloc: Global, fields: &[&str]) -> Result<String> {
    let [line, times, last] = fields else {
        bail!("a line, how many times it stands, and the last line");
    };
    let line = octets(alloc, line)?;
    let mut file = Vec::new(alloc);
    for _ in 0..times.parse::<u32>()? {
        file.extend_from_slice(&line)?;
    }
    file.extend_from_slice(&octets(alloc, last)?)?;
    ensure!(
        file.len() <= 1_048_576,
        "a batch of at most 1,048,576 bytes"
    );
    match read_batch(alloc, &file, START) {
        Ok(batch) => Ok(format!(in alloc; "{} URLs", urls_in(&batch))?),
        Err(answer) => refused(alloc, answer),
    }
}

/// How many lines ask for a URL.
fn urls_in(batch: &Batch) -> u32 {
    let mut count = 0_u32;
    for line in batch.as_slice() {
        if matches!(line, BatchLine::Get(_, _)) {
            count = count.saturating_add(1);
        }
    }
    count
}

/// The lines of a batch, parted by commas.
pub(crate) fn written(alloc: Global, batch: &Batch) -> Result<String> {
    let mut lines = String::new(alloc);
    for line in batch.as_slice() {
        if !lines.is_empty() {
            lines.push_str(", ")?;
        }
        lines.push_str(&written_line(alloc, line)?)?;
    }
    Ok(lines)
}

fn written_line(alloc: Global, line: &BatchLine) -> Result<String> {
    match line {
        BatchLine::Get(moment, view) => got(alloc, *moment, view),
        BatchLine::Fail(moment, proxy) => fared(alloc, "fail", *moment, proxy),
        BatchLine::Good(moment, proxy) => fared(alloc, "good", *moment, proxy),
    }
}

fn got(alloc: Global, moment: i64, view: &View) -> Result<String> {
    let url = written_text(alloc, &view.url)?;
    let host = written_text(alloc, &view.host)?;
    Ok(format!(in alloc; "{moment} {} {}", url.as_str(), host.as_str())?)
}

fn fared(alloc: Global, word: &str, moment: i64, proxy: &Proxy) -> Result<String> {
    let mut bytes = Vec::new(alloc);
    write_entry(alloc, proxy, &mut bytes)?;
    let entry = String::from_utf8(bytes)?;
    Ok(format!(in alloc; "{word} {moment} {}", entry.as_str())?)
}

fn refused(alloc: Global, answer: BatchAnswer) -> Result<String> {
    match answer {
        BatchAnswer::Refused(kind, line) => Ok(format!(in alloc; "{line} {kind:?}")?),
        BatchAnswer::Memory => bail!("want of memory"),
    }
}
