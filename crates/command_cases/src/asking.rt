// What `ask` writes and sends beside a server that is silent, slow or hostile.
use crate::calls::status_of;
use crate::moves::{self, Form};
use crate::network::Network;
use anyhow::{Context, Result, bail};
use pac_command::Status;
use pac_ports::{MemoryFiles, MemorySink};
use std::alloc::Global;

/// The number of the status, the text, and the moves of the link. There are no files; the first number of the dice is
/// that of the plain reply.
pub(crate) fn asked(alloc: Global, fields: &[&str]) -> Result<String> {
    let [words, coming] = fields else {
        bail!("words, and what comes");
    };
    let mut network = Network::new(alloc, "4660", coming)?;
    let mut out = MemorySink::new(alloc, 1000)?;
    told_of(alloc, words, &mut out, &mut network)
}

fn told_of(
    alloc: Global,
    words: &str,
    out: &mut MemorySink,
    network: &mut Network,
) -> Result<String> {
    let mut files = MemoryFiles::new(alloc);
    let status = status_of(alloc, words, &mut files, out, network)?;
    let moves = moves::written(alloc, Form::Kinds, network.log())?;
    written(alloc, status, out.bytes(), &moves)
}

fn written(alloc: Global, status: Status, bytes: &[u8], moves: &str) -> Result<String> {
    let number = status.number();
    let text = std::str::from_utf8(bytes).ok().context("a text")?;
    let text = text.trim_end();
    Ok(format!(in alloc; "{number} {text} | {moves}")?)
}
