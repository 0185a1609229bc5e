// What `pac` answers over a script and a names file, and where the clock shows a moment. It has no link.
use crate::calls::status_of;
use crate::network::Network;
use anyhow::{Result, bail};
use case_rows::{octets, written_octets};
use pac_command::Status;
use pac_ports::{MemoryFiles, MemorySink};
use std::alloc::Global;

pub(crate) fn plain(alloc: Global, fields: &[&str]) -> Result<String> {
    let [script, words] = fields else {
        bail!("a script and words");
    };
    over(alloc, &octets(alloc, script)?, b"", words)
}

pub(crate) fn at_moment(alloc: Global, fields: &[&str]) -> Result<String> {
    let [moment, script, words] = fields else {
        bail!("a moment, a script and words");
    };
    let mut files = files_of(alloc, &octets(alloc, script)?, b"")?;
    let mut out = MemorySink::new(alloc, 1000)?;
    let mut network = Network::none(alloc, moment.parse::<i64>()?)?;
    let status = status_of(alloc, words, &mut files, &mut out, &mut network)?;
    written(alloc, status, out.bytes())
}

pub(crate) fn mapped(alloc: Global, fields: &[&str]) -> Result<String> {
    let [names, script, words] = fields else {
        bail!("a names file, a script and words");
    };
    over(
        alloc,
        &octets(alloc, script)?,
        &octets(alloc, names)?,
        words,
    )
}

pub(crate) fn nested(alloc: Global, fields: &[&str]) -> Result<String> {
    let [count] = fields else {
        bail!("a count of brackets");
    };
    let count = count.parse::<usize>()?;
    let mut script = vec![in alloc; b'('; count]?;
    script.push(b'1')?;
    script.extend_from_slice(&vec![in alloc; b')'; count]?)?;
    over(alloc, &script, b"", "check s.pac")
}

pub(crate) fn long(alloc: Global, fields: &[&str]) -> Result<String> {
    let blanks = blanks_of(alloc, fields)?;
    over(alloc, &blanks, b"", "resolve s.pac http://example.com/a")
}

pub(crate) fn long_names(alloc: Global, fields: &[&str]) -> Result<String> {
    let blanks = blanks_of(alloc, fields)?;
    over(
        alloc,
        b"",
        &blanks,
        "map --names n s.pac http://example.com/a",
    )
}

fn blanks_of(alloc: Global, fields: &[&str]) -> Result<Vec<u8>> {
    let [length] = fields else {
        bail!("a length");
    };
    Ok(vec![in alloc; b' '; length.parse::<usize>()?]?)
}

/// The answer to words over a script and a names file.
fn over(alloc: Global, script: &[u8], names: &[u8], words: &str) -> Result<String> {
    let mut files = files_of(alloc, script, names)?;
    let mut out = MemorySink::new(alloc, 1000)?;
    let status = answer_over(alloc, words, &mut files, &mut out)?;
    written(alloc, status, out.bytes())
}

/// Files in which a script is `s.pac`, and a names file `n`.
fn files_of(alloc: Global, script: &[u8], names: &[u8]) -> Result<MemoryFiles> {
    let mut files = MemoryFiles::new(alloc);
    files.add(alloc, "s.pac", script)?;
    files.add(alloc, "n", names)?;
    Ok(files)
}

/// The status of words over files and a sink alone.
fn answer_over(
    alloc: Global,
    words: &str,
    files: &mut MemoryFiles,
    out: &mut MemorySink,
) -> Result<Status> {
    let mut network = Network::none(alloc, 0)?;
    status_of(alloc, words, files, out, &mut network)
}

/// The answer to the same words once more over the same files and sink, and what both calls wrote.
pub(crate) fn called_twice(alloc: Global, fields: &[&str]) -> Result<String> {
    let [script, words, reading, writing] = fields else {
        bail!("a script, words, and the calls of files and of the sink that fail");
    };
    let mut files = files_of(alloc, &octets(alloc, script)?, b"")?;
    files.fail_at(alloc, reading.parse::<u64>()?)?;
    let mut out = MemorySink::new(alloc, 1000)?;
    out.fail_at(alloc, writing.parse::<u64>()?)?;
    let _first = answer_over(alloc, words, &mut files, &mut out)?;
    let second = answer_over(alloc, words, &mut files, &mut out)?;
    written(alloc, second, out.bytes())
}

/// A status, and what is written, as rows tell them.
fn written(alloc: Global, status: Status, bytes: &[u8]) -> Result<String> {
    let bytes = written_octets(alloc, bytes)?;
    Ok(format!(in alloc; "{status:?} '{}'", bytes.as_str())?)
}
