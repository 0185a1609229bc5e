// The summary of a generated batch that was resolved.
ghost use Rattle.std.specs.Prelude.{◌≡◌, IfOk, string_bytes, count_by};
ghost use Rattle.pac_generate.specs.Summary.{is_direct, is_proxy, is_socks, kinds_of, summary_text, input_line, count_line, kind_line};

use proxy_list::ProxyKind;
use std::alloc::{AllocError, Global};
use utf16_text::Memory;

/// How many URLs there are of each kind of the proxy that is tried first: none, an HTTP or HTTPS proxy, a SOCKS proxy.
#[derive(Clone, Copy, Debug, PartialEq, Eq)]
pub struct Kinds {
    pub direct: usize,
    pub proxy: usize,
    pub socks: usize,
}

/// How many of these kinds there are of each of the three.
pub fn kinds_of(kinds: &[ProxyKind]) -> Kinds
    ensures { result ≡ kinds_of kinds.now }
{
    Kinds {
        direct: direct_count(kinds),
        proxy: proxy_count(kinds),
        socks: socks_count(kinds),
    }
}

fn direct_count(kinds: &[ProxyKind]) -> usize
    ensures { result ≡ count_by is_direct kinds.now }
{
    kinds.iter().filter(|kind| is_direct(**kind)).count()
}

fn proxy_count(kinds: &[ProxyKind]) -> usize
    ensures { result ≡ count_by is_proxy kinds.now }
{
    kinds.iter().filter(|kind| is_proxy(**kind)).count()
}

fn socks_count(kinds: &[ProxyKind]) -> usize
    ensures { result ≡ count_by is_socks kinds.now }
{
    kinds.iter().filter(|kind| is_socks(**kind)).count()
}

fn is_direct(kind: ProxyKind) -> bool
    ensures { result ≡ is_direct kind }
{
    matches!(kind, ProxyKind::Direct)
}

fn is_proxy(kind: ProxyKind) -> bool
    ensures { result ≡ is_proxy kind }
{
    matches!(kind, ProxyKind::Http | ProxyKind::Https)
}

fn is_socks(kind: ProxyKind) -> bool
    ensures { result ≡ is_socks kind }
{
    matches!(kind, ProxyKind::Socks4 | ProxyKind::Socks5)
}

/// What the resolving of a generated batch came to.
#[derive(Clone, Copy, Debug, PartialEq, Eq)]
pub struct Summary {
    pub seed: u32,
    pub sites: u32,
    pub urls: usize,
    /// All runs of the script.
    pub runs: u64,
    /// The distinct names that were asked.
    pub names: u64,
    pub kinds: Kinds,
}

/// The summary as three lines.
#[tactic(auto, unfolding(crate::specs::Summary::summary_text))]
pub fn summary_text(alloc: Global, summary: Summary) -> Result<String, Memory>
    ensures { IfOk result (λ text. string_bytes text ≡ summary_text summary) }
{
    let mut text = input_line(alloc, summary)?;
    text.push_str(&count_line(alloc, summary)?)?;
    text.push_str(&kind_line(alloc, summary.kinds)?)?;
    Ok(text)
}

fn input_line(alloc: Global, summary: Summary) -> Result<String, AllocError>
    ensures { IfOk result (λ line. string_bytes line ≡ input_line summary) }
{
    let Summary { seed, sites, .. } = summary;
    format!(in alloc; "seed {seed} sites {sites}\n")
}

fn count_line(alloc: Global, summary: Summary) -> Result<String, AllocError>
    ensures { IfOk result (λ line. string_bytes line ≡ count_line summary) }
{
    let Summary {
        urls,
        runs,
        names,
        ..
    } = summary;
    format!(in alloc; "urls {urls} runs {runs} names {names}\n")
}

fn kind_line(alloc: Global, kinds: Kinds) -> Result<String, AllocError>
    ensures { IfOk result (λ line. string_bytes line ≡ kind_line kinds) }
{
    let Kinds {
        direct,
        proxy,
        socks,
    } = kinds;
    format!(in alloc; "direct {direct} proxy {proxy} socks {socks}\n")
}
