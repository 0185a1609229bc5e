// Proxy lists.
ghost use Rattle.std.specs.Prelude.{◌≡◌, ◌+◌, ◌∷◌, ◌++◌, [], IfNone, IfOk, IfSome, OnOk, length};
ghost use Rattle.std.specs.List.{filter_map};
ghost use Rattle.proxy_list.specs.Proxies.{entry_of, pieces_of, proxies_of};

use crate::entry::{entry, no_proxy};
use crate::proxy::Proxy;
use crate::words::{SEMICOLON, length_before};
use std::alloc::Global;
use utf16_text::{List, Memory, Text};

/// Proxies, in the order in which a script names them.
pub type ProxyList = List<Proxy>;

/// The proxies that a text lists, parted by `;`, in its order. A piece that can't be read is skipped, and a list
/// without any other is `DIRECT`.
pub fn parse_list(alloc: Global, text: &Text) -> Result<ProxyList, Memory>
    ensures { IfOk result (λ proxies. proxies ≡ proxies_of text.now) }
{
    let mut proxies = entries(alloc, text.lower(alloc)?.units())?;
    if proxies.is_empty() {
        proxies.push(alloc, no_proxy(alloc)?)?;
    }
    Ok(proxies)
}

// The entries of the pieces of a text in lower case.
fn entries(alloc: Global, text: &[u16]) -> Result<ProxyList, Memory>
    ensures { IfOk result (λ proxies. proxies ≡ filter_map entry_of (pieces_of text.now)) }
{
    let mut proxies = ProxyList::new(alloc);
    let mut rest = Some(text);
    while let Some(units) = rest {
        let (piece, others) = first_piece(units);
        if let Some(proxy) = entry(alloc, piece)? {
            proxies.push(alloc, proxy)?;
        }
        rest = others;
    }
    Ok(proxies)
}

// The first piece, and what stands behind its `;`, where there is one.
fn first_piece(text: &[u16]) -> (&[u16], Option<&[u16]>)
    ensures some { IfSome result.1 (λ rest. pieces_of text.now ≡ result.0.now ∷ pieces_of rest.now) }
    ensures none { IfNone result.1 (pieces_of text.now ≡ result.0.now ∷ []) }
    ensures shorter { IfSome result.1 (λ rest. length result.0.now + 1 + length rest.now ≡ length text.now) }
{
    let (piece, rest) = text.split_at(length_before(SEMICOLON, text));
    match rest {
        [] => (piece, None),
        [_, others @ ..] => (piece, Some(others)),
    }
}
