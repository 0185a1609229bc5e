//! What `pac` answers, writes and sends over files, sinks and a link in memory: tables of scripts, names files,
//! batches, words, and what comes over the link.
//!
//! It reads the rows from its input, and stands on pac_command and pac_ports.
#![tactic(auto)]

mod answers;
mod asking;
mod calls;
mod coming;
mod datagrams;
mod messages;
mod moves;
mod network;
mod reports;

use anyhow::{Result, bail};
use std::alloc::Global;

fn main(rt: HostRuntime) -> Result<()> {
    case_rows::run(&rt, answer)
}

fn answer(alloc: Global, part: &str, fields: &[&str]) -> Result<String> {
    match part {
        "answers" => answers::plain(alloc, fields),
        "clocks" => answers::at_moment(alloc, fields),
        "names files" => answers::mapped(alloc, fields),
        "nested brackets" => answers::nested(alloc, fields),
        "long scripts" => answers::long(alloc, fields),
        "long names files" => answers::long_names(alloc, fields),
        "called twice" => answers::called_twice(alloc, fields),
        "URLs" => reports::url(alloc, fields),
        "batches" => reports::batch(alloc, fields),
        "maps" => reports::map(alloc, fields),
        "failing ports" => reports::failing(alloc, fields),
        "counted lines" => reports::counted(alloc, fields),
        "asked names" => asking::asked(alloc, fields),
        "datagrams" => datagrams::outcomes(alloc, fields),
        _ => bail!("no part {part}"),
    }
}
