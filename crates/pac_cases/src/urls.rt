// What scripts see of URLs.
use anyhow::{Context, Result, bail};
use batch_text::{View, ViewAnswer, view};
use case_rows::{octets, written_text};
use std::alloc::Global;

/// The URL and the host that a script sees, or the refusal.
pub(crate) fn seen(alloc: Global, fields: &[&str]) -> Result<String> {
    let [url] = fields else {
        bail!("a URL");
    };
    let bytes = octets(alloc, url)?;
    match view(alloc, std::str::from_utf8(&bytes)?) {
        Ok(View { url, host }) => {
            let url = written_text(alloc, &url)?;
            let host = written_text(alloc, &host)?;
            Ok(format!(in alloc; "{} {}", url.as_str(), host.as_str())?)
        }
        Err(answer) => refused(alloc, answer),
    }
}

/// How many units a script sees of a URL whose path is so many times a sign.
pub(crate) fn length(alloc: Global, fields: &[&str]) -> Result<String> {
    let [begin, sign, times] = fields else {
        bail!("the begin of a URL, a sign and how many times it follows");
    };
    let mut url = String::from_str(alloc, begin)?;
    for _ in 0..times.parse::<u32>().context("how many times")? {
        url.push_str(sign)?;
    }
    match view(alloc, &url) {
        Ok(View { url, host: _ }) => Ok(format!(in alloc; "{} units", url.len())?),
        Err(answer) => refused(alloc, answer),
    }
}

fn refused(alloc: Global, answer: ViewAnswer) -> Result<String> {
    Ok(format!(in alloc; "{answer:?}")?)
}
