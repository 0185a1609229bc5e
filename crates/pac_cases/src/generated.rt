// Generated scripts, batches and answers, and the link that answers from them.
ghost use Rattle.std.specs.Prelude.{◌≡◌};

use crate::batches;
use crate::names::name_in;
use answer_table::AnswerTable;
use anyhow::{Context, Result, bail, ensure};
use batch_text::MOST_URLS;
use case_rows::written_text;
use dns_message::{read_reply, write_query};
use pac_generate::{Generated, KnownAnswers, MapLink, Summary, generate, kinds_of, summary_text};
use pac_names::{Answer, quad_text};
use pac_ports::{Got, Link, Which};
use proxy_list::{ProxyKind, parse_entry};
use std::alloc::Global;
use std::marker::Brand;
use utf16_text::Text;

fn generated(alloc: Global, seed: &str, sites: &str) -> Result<Generated> {
    let sites = sites.parse::<u32>()?;
    ensure!(sites as usize <= MOST_URLS, "at most 256 sites");
    Ok(generate(alloc, seed.parse::<u32>()?, sites)?)
}

/// The script of a seed and a number of sites.
pub(crate) fn script(alloc: Global, fields: &[&str]) -> Result<String> {
    let [seed, sites] = fields else {
        bail!("a seed and a number of sites");
    };
    written_text(alloc, &generated(alloc, seed, sites)?.script)
}

/// Their batch.
pub(crate) fn batch(alloc: Global, fields: &[&str]) -> Result<String> {
    let [seed, sites] = fields else {
        bail!("a seed and a number of sites");
    };
    batches::written(alloc, &generated(alloc, seed, sites)?.batch)
}

/// What their map tells of some names.
pub(crate) fn answers(alloc: Global, fields: &[&str]) -> Result<String> {
    let [seed, sites, names @ ..] = fields else {
        bail!("a seed, a number of sites and names");
    };
    let made = generated(alloc, seed, sites)?;
    let mut told = String::new(alloc);
    for name in names {
        let name = name_in(name)?;
        add(alloc, &mut told, &written(alloc, made.map.get(&name))?)?;
    }
    Ok(told)
}

fn add(_alloc: Global, told: &mut String, more: &str) -> Result<()> {
    if !told.is_empty() {
        told.push_str(", ")?;
    }
    told.push_str(more)?;
    Ok(())
}

fn written(alloc: Global, answer: Option<Answer>) -> Result<String> {
    Ok(match answer {
        Some(Answer::Address(address)) => quad_text(alloc, address)?,
        Some(Answer::Address6(address)) => format!(in alloc; "{address:032x}")?,
        Some(Answer::NoAddress) => String::from_str(alloc, "no address")?,
        None => String::from_str(alloc, "nothing")?,
    })
}

/// What a link with their map replies to questions for some names, which go to its servers in turn, in the order of
/// asking, and what comes behind.
pub(crate) fn replies(alloc: Global, fields: &[&str]) -> Result<String> {
    let [seed, sites, names @ ..] = fields else {
        bail!("a seed, a number of sites and names");
    };
    let made = generated(alloc, seed, sites)?;
    replied::<Brand>(alloc, &made.map, names)
}

fn replied<K: KnownAnswers>(alloc: Global, known: &AnswerTable, names: &[&str]) -> Result<String>
    requires { known.now ≡ K.answers }
{
    let mut link = MapLink::<K>::new(alloc, known)?;
    for (place, name) in names.iter().enumerate() {
        let to = if place % 2 == 0 {
            Which::First
        } else {
            Which::Second
        };
        ask(&mut link, to, name)?;
    }
    let mut told = String::new(alloc);
    for name in names {
        add(alloc, &mut told, &reply(alloc, &mut link, name)?)?;
    }
    add(
        alloc,
        &mut told,
        &reply(alloc, &mut link, "behind.example")?,
    )?;
    Ok(told)
}

/// The number of each question.
const NUMBER: u16 = 7;

fn ask<N: Link>(link: &mut N, to: Which, name: &str) -> Result<()> {
    let name = name_in(name)?;
    let mut buffer = [0; 512];
    let length = write_query(&mut buffer, NUMBER, &name);
    match link.send(to, &buffer[..length]) {
        Ok(()) => Ok(()),
        Err(_) => bail!("the link failed"),
    }
}

/// What comes next, as a reply to the question for this name.
fn reply<N: Link>(alloc: Global, link: &mut N, name: &str) -> Result<String> {
    let name = name_in(name)?;
    let mut buffer = [0; 512];
    match link.receive(&mut buffer, 512) {
        Ok(Got::Datagram(count)) => {
            let datagram = buffer
                .get(..count)
                .context("a datagram of at most 512 octets")?;
            written(alloc, read_reply(datagram, NUMBER, &name))
        }
        Ok(Got::Tick) => Ok(String::from_str(alloc, "a tick")?),
        Ok(Got::Piece(_) | Got::StreamEnd) => bail!("the link has no stream"),
        Err(_) => bail!("the link failed"),
    }
}

/// The summary of a seed, a number of sites, of runs and of names, and the first entries of the URLs' lists.
pub(crate) fn summary(alloc: Global, fields: &[&str]) -> Result<String> {
    let [seed, sites, runs, names, entries @ ..] = fields else {
        bail!("a seed, numbers of sites, runs and names, and entries");
    };
    let summary = Summary {
        seed: seed.parse::<u32>()?,
        sites: sites.parse::<u32>()?,
        urls: entries.len(),
        runs: runs.parse::<u64>()?,
        names: names.parse::<u64>()?,
        kinds: kinds_of(&kinds_in(alloc, entries)?),
    };
    let text = summary_text(alloc, summary)?;
    written_text(alloc, &Text::from_str(alloc, &text)?)
}

fn kinds_in(alloc: Global, entries: &[&str]) -> Result<Vec<ProxyKind>> {
    let mut kinds = Vec::new(alloc);
    for entry in entries {
        let found = parse_entry(alloc, &Text::from_str(alloc, entry)?)?;
        kinds.push(found.context("an entry")?.kind)?;
    }
    Ok(kinds)
}
