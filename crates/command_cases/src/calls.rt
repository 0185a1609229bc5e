// Calls of `pac` over objects in memory.
ghost use Rattle.std.specs.Prelude.{◌≡◌, ◌<◌};

use crate::network::Network;
use anyhow::Result;
use pac_command::{Status, pac};
use pac_ports::{MemoryFiles, Sink};
use std::alloc::Global;
use std::marker::Brand;
use std::sync::ledger::{Blank, Ledger};
use step_counter::Steps;

/// The status of words that are parted by blanks.
pub(crate) fn status_of<K: Sink>(
    alloc: Global,
    line: &str,
    files: &mut MemoryFiles,
    out: &mut K,
    network: &mut Network,
) -> Result<Status> {
    let words = words_in(alloc, line)?;
    let blank = Blank::new(1);
    Ok(called::<K, Brand>(alloc, &words, files, out, network, blank))
}

fn words_in(alloc: Global, line: &str) -> Result<Vec<String>> {
    let mut words = Vec::new(alloc);
    for word in line.split_whitespace() {
        words.push(String::from_str(alloc, word)?)?;
    }
    Ok(words)
}

// The top call. No other function calls it, so its contract is met once.
fn called<K: Sink, L: Ledger>(
    alloc: Global,
    words: &Vec<String>,
    files: &mut MemoryFiles,
    out: &mut K,
    network: &mut Network,
    blank: Blank,
) -> Status
    requires name { blank.name ≡ L.name }
    requires parts { blank.parts ≡ L.parts }
    requires some { 0 < blank.parts }
{
    let mut runs = Steps::<L>::new(blank);
    pac(
        alloc,
        words,
        files,
        out,
        &mut network.link,
        &mut network.clock,
        &mut network.dice,
        &mut runs,
    )
}
