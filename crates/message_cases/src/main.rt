//! Names, quads, questions and replies at their edges: a table with the values of RFC 1035 and of this project's rules.
//!
//! It reads the rows from its input, and stands on pac_names, dns_name and dns_message.
#![tactic(auto)]

mod messages;
mod names;
mod replies;
mod wire_names;

use anyhow::{Result, bail};
use std::alloc::Global;

fn main(rt: HostRuntime) -> Result<()> {
    case_rows::run(&rt, answer)
}

fn answer(alloc: Global, part: &str, fields: &[&str]) -> Result<String> {
    match part {
        "replies" => replies::answer(alloc, fields),
        "truncated replies" => replies::is_truncated(alloc, fields),
        "written replies" => replies::written_reply(alloc, fields),
        "written questions" => replies::written_question(alloc, fields),
        "questions" => replies::question(alloc, fields),
        "ends of names" => wire_names::end(alloc, fields),
        "spelled names" => wire_names::is_spelled(alloc, fields),
        "same names" => wire_names::are_same(alloc, fields),
        "written names" => wire_names::written(alloc, fields),
        "lookup names" => names::lookup(alloc, fields),
        "IPv6 lookup names" => names::lookup6(alloc, fields),
        "quads" => names::address(alloc, fields),
        "networks" => names::is_in_network(alloc, fields),
        "keys" => names::keys(alloc, fields),
        _ => bail!("no part {part}"),
    }
}
