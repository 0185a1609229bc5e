//! IPv6 addresses and prefixes at their edges: a table with the values of RFC 4291, RFC 5952 and this project's rules.
//!
//! It reads the rows from its input, and stands on pac_ext.
#![tactic(auto)]

mod repeated;

use anyhow::{Result, bail};
use case_rows::{text, written_octets};
use pac_ext::{in_prefix, quad6, write6};
use std::alloc::Global;

fn main(rt: HostRuntime) -> Result<()> {
    case_rows::run(&rt, answer)
}

fn answer(alloc: Global, part: &str, fields: &[&str]) -> Result<String> {
    match part {
        "addresses" => address(alloc, fields),
        "plain texts" => plain_text(alloc, fields),
        "prefixes" => is_in_prefix(alloc, fields),
        "repeated readings" => repeated::readings(alloc, fields),
        "repeated writings" => repeated::writings(alloc, fields),
        "repeated prefixes" => repeated::prefixes(alloc, fields),
        _ => bail!("no part {part}"),
    }
}

/// The address that a text writes.
fn address(alloc: Global, fields: &[&str]) -> Result<String> {
    let [field] = fields else {
        bail!("a text");
    };
    match quad6(&text(alloc, field)?) {
        Some(address) => Ok(format!(in alloc; "{address:032x}")?),
        None => Ok(String::from_str(alloc, "nothing")?),
    }
}

/// An address as it is written.
fn plain_text(alloc: Global, fields: &[&str]) -> Result<String> {
    let [field] = fields else {
        bail!("an address");
    };
    let mut buffer = [0; 39];
    let length = write6(u128::from_str_radix(field, 16)?, &mut buffer);
    match buffer.get(..length) {
        Some(octets) => written_octets(alloc, octets),
        None => bail!("a text of {length} octets"),
    }
}

/// Whether an address is in a prefix.
fn is_in_prefix(alloc: Global, fields: &[&str]) -> Result<String> {
    let [address, prefix] = fields else {
        bail!("an address and a prefix");
    };
    let within = in_prefix(&text(alloc, address)?, &text(alloc, prefix)?);
    Ok(format!(in alloc; "{within}")?)
}
