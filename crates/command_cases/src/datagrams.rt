// What one datagram comes to that is all that comes, for `ask` and for `resolve`.
use crate::calls::status_of;
use crate::moves::{self, Form};
use crate::network::Network;
use anyhow::{Context, Result, bail, ensure};
use pac_ports::{MemoryFiles, MemorySink};
use std::alloc::Global;

// What `resolve` answers is the address, or `null`.
const SCRIPT: &[u8] = b"function FindProxyForURL(u, h) { return \"\" + dnsResolve(h); }";

/// What both write of a host beside a datagram, and the moves of the link, which are the same. The numbers of the dice
/// begin with the one that is given.
pub(crate) fn outcomes(alloc: Global, fields: &[&str]) -> Result<String> {
    let [host, dice, datagram] = fields else {
        bail!("a host, the number of its question, and a datagram");
    };
    let asks = format!(in alloc; "ask {host} --wait 1 --tries 1")?;
    let (said, moves) = told(alloc, &asks, dice, datagram)?;
    let resolves = format!(in alloc; "resolve s.pac http://{host}/ --wait 1 --tries 1")?;
    let (report, others) = told(alloc, &resolves, dice, datagram)?;
    ensure!(moves == others, "the moves differ: {moves}, {others}");
    let said = said.lines().next().context("a line")?;
    let end = report.lines().nth(1).context("a second line")?;
    Ok(format!(in alloc; "{said}, {end} |{moves}")?)
}

/// What is written, and the moves of the link.
fn told(alloc: Global, words: &str, dice: &str, datagram: &str) -> Result<(String, String)> {
    let mut files = MemoryFiles::new(alloc);
    files.add(alloc, "s.pac", SCRIPT)?;
    let mut out = MemorySink::new(alloc, 1000)?;
    let mut network = Network::new(alloc, dice, datagram)?;
    let _status = status_of(alloc, words, &mut files, &mut out, &mut network)?;
    let text = std::str::from_utf8(out.bytes()).ok().context("a text")?;
    let moves = moves::written(alloc, Form::Questions, network.log())?;
    Ok((String::from_str(alloc, text)?, moves))
}
