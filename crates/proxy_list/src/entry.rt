// One entry of a proxy list.
ghost use Rattle.std.specs.Prelude.{◌≡◌, ◌≤◌, IfOk, Some, None, bytes_eq, codes, if◌then◌else◌, length};
ghost use Rattle.std.specs.List.{list_all};
ghost use Rattle.utf16_text.specs.Digits.{is_digit};
ghost use Rattle.proxy_list.specs.Proxies.{
  are_port_digits,
  bracket_length,
  direct,
  entry_of,
  host_length,
  is_host,
  is_literal_unit,
  is_name_unit,
  is_part,
  kind_named,
  lower,
  port_behind,
  port_in,
  proxy_at,
  standard_port,
};

use crate::proxy::{Proxy, ProxyKind};
use crate::words::{COLON, SEMICOLON, first_word, is_spelled, length_before};
use std::alloc::Global;
use utf16_text::{Memory, Text, is_digit};
use whole_number::Whole;

/// `[` and `]`.
const OPENING: u16 = 91;

const CLOSING: u16 = 93;

/// The entry that a text is, in either case: `DIRECT`, or one of `PROXY HTTP HTTPS SOCKS SOCKS4 SOCKS5` and a host, or
/// a host, `:` and a port from 1 to 65,535. Spaces and tabs part the words. None where it can't be read.
pub fn parse_entry(alloc: Global, text: &Text) -> Result<Option<Proxy>, Memory>
    ensures { IfOk result (λ found. found ≡ entry_of (lower text.now)) }
{
    entry(alloc, text.lower(alloc)?.units())
}

/// No proxy.
pub(crate) fn no_proxy(alloc: Global) -> Result<Proxy, Memory>
    ensures { IfOk result (λ proxy. proxy ≡ direct) }
{
    Ok(Proxy {
        kind: ProxyKind::Direct,
        host: Text::from_units(alloc, &[])?,
        port: 0,
    })
}

/// The entry of a piece in lower case.
pub(crate) fn entry(alloc: Global, piece: &[u16]) -> Result<Option<Proxy>, Memory>
    ensures { IfOk result (λ found. found ≡ entry_of piece.now) }
{
    let Some((kind, rest)) = first_word(piece) else {
        return Ok(None);
    };
    let Some((address, rest)) = first_word(rest) else {
        return direct_entry(alloc, kind);
    };
    if first_word(rest).is_some() {
        return Ok(None);
    }
    match kind_named(kind) {
        None => Ok(None),
        Some(kind) => proxy_at(alloc, kind, address),
    }
}

fn direct_entry(alloc: Global, word: &[u16]) -> Result<Option<Proxy>, Memory>
    ensures { IfOk result (λ found. found ≡ (if bytes_eq word.now (codes "direct") then Some direct else None)) }
{
    if is_spelled(word, b"direct") {
        Ok(Some(no_proxy(alloc)?))
    } else {
        Ok(None)
    }
}

fn kind_named(word: &[u16]) -> Option<ProxyKind>
    ensures { result ≡ kind_named word.now }
{
    if is_spelled(word, b"proxy") || is_spelled(word, b"http") {
        Some(ProxyKind::Http)
    } else if is_spelled(word, b"https") {
        Some(ProxyKind::Https)
    } else if is_spelled(word, b"socks") || is_spelled(word, b"socks4") {
        Some(ProxyKind::Socks4)
    } else if is_spelled(word, b"socks5") {
        Some(ProxyKind::Socks5)
    } else {
        None
    }
}

fn proxy_at(alloc: Global, kind: ProxyKind, address: &[u16]) -> Result<Option<Proxy>, Memory>
    ensures { IfOk result (λ found. found ≡ proxy_at kind address.now) }
{
    let (host, rest) = address.split_at(host_length(address));
    let Some(port) = port_behind(kind, rest) else {
        return Ok(None);
    };
    if !is_host(host) {
        return Ok(None);
    }
    let host = Text::from_units(alloc, host)?;
    Ok(Some(Proxy { kind, host, port }))
}

// How many units stand before the `:` in front of the port. One between brackets is none.
fn host_length(address: &[u16]) -> usize
    ensures value { result ≡ host_length address.now }
    ensures within { result ≤ length address.now }
{
    let bracket = bracket_length(address);
    bracket + length_before(COLON, address.split_at(bracket).1)
}

fn bracket_length(address: &[u16]) -> usize
    ensures value { result ≡ bracket_length address.now }
    ensures within { result ≤ length address.now }
{
    match address {
        [OPENING, ..] => length_before(CLOSING, address),
        _ => 0,
    }
}

fn is_host(host: &[u16]) -> bool
    ensures { result ≡ is_host host.now }
{
    match host {
        [OPENING, inner @ .., CLOSING] => is_literal(inner),
        _ => is_name(host),
    }
}

fn is_literal(units: &[u16]) -> bool
    ensures { result ≡ is_part is_literal_unit units.now }
{
    !units.is_empty() && units.len() <= 255 && all_literal(units)
}

fn is_name(units: &[u16]) -> bool
    ensures { result ≡ is_part is_name_unit units.now }
{
    !units.is_empty() && units.len() <= 255 && all_name(units)
}

fn all_literal(units: &[u16]) -> bool
    ensures { result ≡ list_all is_literal_unit units.now }
{
    units.iter().all(|unit| is_literal_unit(*unit))
}

fn all_name(units: &[u16]) -> bool
    ensures { result ≡ list_all is_name_unit units.now }
{
    units.iter().all(|unit| is_name_unit(*unit))
}

fn is_literal_unit(unit: u16) -> bool
    ensures { result ≡ is_literal_unit unit }
{
    matches!(unit, 33..=126) && !matches!(unit, OPENING | CLOSING | SEMICOLON)
}

fn is_name_unit(unit: u16) -> bool
    ensures { result ≡ is_name_unit unit }
{
    is_literal_unit(unit) && unit != COLON
}

fn port_behind(kind: ProxyKind, rest: &[u16]) -> Option<u16>
    ensures { result ≡ port_behind kind rest.now }
{
    match rest {
        [] => Some(standard_port(kind)),
        [_, digits @ ..] => port_in(digits),
    }
}

fn standard_port(kind: ProxyKind) -> u16
    ensures { result ≡ standard_port kind }
{
    match kind {
        ProxyKind::Direct => 0,
        ProxyKind::Http => 80,
        ProxyKind::Https => 443,
        ProxyKind::Socks4 | ProxyKind::Socks5 => 1080,
    }
}

fn are_port_digits(units: &[u16]) -> bool
    ensures { result ≡ are_port_digits units.now }
{
    !units.is_empty() && units.len() <= 5 && all_digits(units)
}

fn all_digits(units: &[u16]) -> bool
    ensures { result ≡ list_all is_digit units.now }
{
    units.iter().all(|unit| is_digit(*unit))
}

fn port_in(digits: &[u16]) -> Option<u16>
    ensures { result ≡ port_in digits.now }
{
    if !are_port_digits(digits) {
        return None;
    }
    match u16::try_from(Whole::from_digits(10, digits)?.get()) {
        Ok(0) | Err(_) => None,
        Ok(port) => Some(port),
    }
}
