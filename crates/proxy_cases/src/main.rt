//! Proxy lists and the order in which their proxies are tried. A table of calls with their answers.
//!
//! The cases are those in which docs/PROXIES.md decides what a list is. It reads them from its input, and stands on
//! proxy_list and bad_proxy_table.
#![tactic(auto)]

use anyhow::{Context, Result, bail};
use bad_proxy_table::BadTable;
use case_rows::text;
use proxy_list::{Proxy, parse_entry, parse_list, write_entry};
use std::alloc::Global;

fn main(rt: HostRuntime) -> Result<()> {
    case_rows::run(&rt, answer)
}

fn answer(alloc: Global, part: &str, fields: &[&str]) -> Result<String> {
    match part {
        "lists" => listed(alloc, fields),
        "entries" => read(alloc, fields),
        "orders" => ordered(alloc, fields),
        "bad proxies" => is_bad(alloc, fields),
        _ => bail!("no part {part}"),
    }
}

/// The proxies of a list.
fn listed(alloc: Global, fields: &[&str]) -> Result<String> {
    let [list] = fields else {
        bail!("a list");
    };
    let proxies = parse_list(alloc, &text(alloc, list)?)?;
    written(alloc, proxies.as_slice())
}

/// The entry that a text is, if it can be read.
fn read(alloc: Global, fields: &[&str]) -> Result<String> {
    let [entry] = fields else {
        bail!("an entry");
    };
    match parse_entry(alloc, &text(alloc, entry)?)? {
        Some(proxy) => written(alloc, &[proxy]),
        None => Ok(String::from_str(alloc, "none")?),
    }
}

/// The proxies of a list in the order in which they are tried at a moment, after some reports.
fn ordered(alloc: Global, fields: &[&str]) -> Result<String> {
    let [list, moment, reports @ ..] = fields else {
        bail!("a list, a moment and reports");
    };
    let table = reported(alloc, reports)?;
    let list = parse_list(alloc, &text(alloc, list)?)?;
    let ordered = table.order(alloc, &list, moment.parse::<i64>()?)?;
    written(alloc, ordered.as_slice())
}

/// Whether a proxy is bad at a moment, after some reports.
fn is_bad(alloc: Global, fields: &[&str]) -> Result<String> {
    let [entry, moment, reports @ ..] = fields else {
        bail!("an entry, a moment and reports");
    };
    let table = reported(alloc, reports)?;
    let bad = table.is_bad(&proxy(alloc, entry)?, moment.parse::<i64>()?);
    Ok(format!(in alloc; "{bad}")?)
}

/// The table after reports, each of which is `fail` or `good`, a moment and an entry.
fn reported(alloc: Global, reports: &[&str]) -> Result<BadTable> {
    let mut table = BadTable::new(alloc);
    for report in reports {
        let (word, rest) = report.split_once(' ').context("a report")?;
        let (moment, entry) = rest.split_once(' ').context("a moment and an entry")?;
        let moment = moment.parse::<i64>()?;
        let proxy = proxy(alloc, entry)?;
        match word {
            "fail" => table.failed(alloc, &proxy, moment)?,
            "good" => table.worked(alloc, &proxy, moment)?,
            _ => bail!("fail or good"),
        }
    }
    Ok(table)
}

fn proxy(alloc: Global, entry: &str) -> Result<Proxy> {
    parse_entry(alloc, &text(alloc, entry)?)?.context("an entry")
}

/// The entries, parted by commas.
fn written(alloc: Global, proxies: &[Proxy]) -> Result<String> {
    let mut bytes = Vec::new(alloc);
    for proxy in proxies {
        if !bytes.is_empty() {
            bytes.extend_from_slice(b", ")?;
        }
        write_entry(alloc, proxy, &mut bytes)?;
    }
    Ok(String::from_utf8(bytes)?)
}
