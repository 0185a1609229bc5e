// The proxies of a list.
ghost use Rattle.std.specs.Prelude.{◌≡◌, ◌++◌, IfOk, OnOk, flat_map};
ghost use Rattle.library_calls.specs.Told.{Tells};
ghost use Rattle.library_calls.specs.Listing.{listed, proxy_line};

use crate::told::{Status, Told};
use proxy_list::{Proxy, parse_list, write_entry};
use std::alloc::Global;
use utf16_text::{Memory, Text};

/// Reads a proxy list, as the function of a script answers it, and tells a line for each of its proxies, with its port.
pub fn list_proxies(alloc: Global, list: &[u8]) -> Result<Told, Memory>
    ensures { Tells (listed list.now) result }
{
    let text = Text::from_bytes(alloc, list)?;
    let proxies = parse_list(alloc, &text)?;
    Ok(Told {
        status: Status::Done,
        bytes: lines_of(alloc, proxies.as_slice())?,
    })
}

fn lines_of(alloc: Global, proxies: &[Proxy]) -> Result<Vec<u8>, Memory>
    ensures { IfOk result (λ lines. lines.items ≡ flat_map proxy_line proxies.now) }
{
    let mut lines = Vec::new(alloc);
    for proxy in proxies {
        write_proxy(alloc, proxy, &mut lines)?;
    }
    Ok(lines)
}

fn write_proxy(alloc: Global, proxy: &Proxy, lines: &mut Vec<u8>) -> Result<(), Memory>
    ensures { OnOk result (lines.new.items ≡ lines.old.items ++ proxy_line proxy.now) }
{
    write_entry(alloc, proxy, lines)?;
    lines.push(b'\n')?;
    Ok(())
}
