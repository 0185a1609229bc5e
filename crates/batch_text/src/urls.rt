// URLs, as a script sees them.
ghost use Rattle.std.specs.Prelude.{◌≡◌, ◌++◌, IfOk, OnOk, codes, string_bytes};
ghost use Rattle.std.specs.Option.{option_copied};
ghost use Rattle.url.specs.Parts.{host_or_empty};
ghost use Rattle.url.specs.Host.{host_text};
ghost use Rattle.batch_text.specs.View.{
  Views,
  view_of,
  is_served,
  is_private,
  port_part,
  path_part,
  query_part,
  url_text,
  bare_host,
  seen_by_scripts,
};

use crate::seen::{View, ViewAnswer};
use std::alloc::{AllocError, Global};
use url::{Host, ParseError, Url};
use utf16_text::Text;

/// The longest URL that is read, in bytes.
pub const LONGEST_URL: usize = 8_192;

/// The view of the URL that a text spells by the URL Standard.
pub fn view(alloc: Global, text: &str) -> Result<View, ViewAnswer>
    ensures { Views result (view_of text.now) }
{
    if text.len() > LONGEST_URL {
        return Err(ViewAnswer::BadUrl);
    }
    match Url::parse(alloc, text) {
        Ok(url) => seen(alloc, &url),
        Err(ParseError::OutOfMemory | ParseError::Overflow) => Err(ViewAnswer::Memory),
        Err(_) => Err(ViewAnswer::BadUrl),
    }
}

/// The view of a URL whose scheme is served.
fn seen(alloc: Global, url: &Url) -> Result<View, ViewAnswer>
    ensures { Views result (seen_by_scripts url.now) }
{
    if !is_served(url.scheme()) {
        return Err(ViewAnswer::BadUrl);
    }
    let shown = shown_url(alloc, url)?;
    Ok(View {
        url: Text::from_str(alloc, &shown)?,
        host: Text::from_str(alloc, shown_host(url))?,
    })
}

#[tactic(auto, unfolding(crate::specs::View::is_served))]
fn is_served(scheme: &str) -> bool
    ensures { result ≡ is_served scheme.now }
{
    matches!(scheme, "http" | "https" | "ws" | "wss" | "ftp")
}

/// Whether the path and the query of such a URL are kept from scripts.
#[tactic(auto, unfolding(crate::specs::View::is_private))]
fn is_private(scheme: &str) -> bool
    ensures { result ≡ is_private scheme.now }
{
    matches!(scheme, "https" | "wss")
}

fn host_of(url: &Url) -> &str
    ensures { result.now ≡ host_text (host_or_empty url.now) }
{
    url.host_str().unwrap_or("")
}

/// The host without the brackets of an IPv6 address.
fn shown_host(url: &Url) -> &str
    ensures { result.now ≡ bare_host (host_or_empty url.now) }
{
    let host = host_of(url);
    match url.host() {
        Some(Host::Ipv6(_)) => without_brackets(host),
        _ => host,
    }
}

/// The text without `[` in front and `]` at the end.
fn without_brackets(text: &str) -> &str
    ensures { (inside : _) → text.now ≡ codes "[" ++ inside ++ codes "]" → result.now ≡ inside }
{
    match text.strip_prefix('[') {
        Some(behind) => match behind.strip_suffix(']') {
            Some(inside) => inside,
            None => behind,
        },
        None => text,
    }
}

/// Scheme, host and port, and then what a script may see of path and query.
fn shown_url(alloc: Global, url: &Url) -> Result<String, AllocError>
    ensures { IfOk result (λ shown. string_bytes shown ≡ url_text url.now) }
{
    let mut shown = String::new(alloc);
    shown.push_str(url.scheme())?;
    shown.push_str("://")?;
    shown.push_str(host_of(url))?;
    push_port(alloc, &mut shown, url.port())?;
    if is_private(url.scheme()) {
        shown.push('/')?;
    } else {
        shown.push_str(url.path())?;
        push_query(&mut shown, url.query())?;
    }
    Ok(shown)
}

fn push_port(alloc: Global, shown: &mut String, port: Option<u16>) -> Result<(), AllocError>
    ensures { OnOk result (string_bytes shown.new ≡ string_bytes shown.old ++ port_part port) }
{
    if let Some(port) = port {
        shown.push(':')?;
        shown.push_str(&port.to_string(alloc)?)?;
    }
    Ok(())
}

fn push_query(shown: &mut String, query: Option<&str>) -> Result<(), AllocError>
    ensures { OnOk result (string_bytes shown.new ≡ string_bytes shown.old ++ query_part (option_copied query.entry)) }
{
    if let Some(query) = query {
        shown.push('?')?;
        shown.push_str(query)?;
    }
    Ok(())
}
