// Entries as they are written.
ghost use Rattle.std.specs.Prelude.{◌≡◌, ◌++◌, OnErr, OnOk, length, map, take};
ghost use Rattle.proxy_list.specs.Proxies.{address_text, byte_of, entry_text, kind_text};

use crate::proxy::{Proxy, ProxyKind};
use std::alloc::{AllocError, Global};
use utf16_text::Memory;

/// Writes an entry behind `out`: `DIRECT`, or `PROXY`, `HTTPS`, `SOCKS` or `SOCKS5`, a space, the host, `:` and the
/// port. After Memory `out` is as it was.
pub fn write_entry(alloc: Global, proxy: &Proxy, out: &mut Vec<u8>) -> Result<(), Memory>
    ensures ok { OnOk result (out.new.items ≡ out.old.items ++ entry_text proxy.now) }
    ensures unchanged { OnErr result (out.new.items ≡ out.old.items) }
{
    let before = out.len();
    match append_entry(alloc, proxy, out) {
        Ok(()) => Ok(()),
        Err(_) => {
            out.truncate(before);
            Err(Memory)
        }
    }
}

// After an error a part may stand behind what was there, here and below.
fn append_entry(alloc: Global, proxy: &Proxy, out: &mut Vec<u8>) -> Result<(), AllocError>
    ensures ok { OnOk result (out.new.items ≡ out.old.items ++ entry_text proxy.now) }
    ensures kept { OnErr result (take (length out.old.items) out.new.items ≡ out.old.items) }
{
    out.extend_from_slice(kind_text(proxy.kind))?;
    if proxy.kind.is_direct() {
        return Ok(());
    }
    append_address(alloc, proxy.host.units(), proxy.port, out)
}

fn append_address(
    alloc: Global,
    host: &[u16],
    port: u16,
    out: &mut Vec<u8>,
) -> Result<(), AllocError>
    ensures ok { OnOk result (out.new.items ≡ out.old.items ++ address_text host.now port) }
    ensures kept { OnErr result (take (length out.old.items) out.new.items ≡ out.old.items) }
{
    out.push(b' ')?;
    append_host(host, out)?;
    let port = format!(in alloc; ":{port}")?;
    out.extend_from_slice(port.as_bytes())
}

fn kind_text(kind: ProxyKind) -> &'static [u8]
    ensures { result.now ≡ kind_text kind }
{
    match kind {
        ProxyKind::Direct => b"DIRECT",
        ProxyKind::Http => b"PROXY",
        ProxyKind::Https => b"HTTPS",
        ProxyKind::Socks4 => b"SOCKS",
        ProxyKind::Socks5 => b"SOCKS5",
    }
}

fn append_host(host: &[u16], out: &mut Vec<u8>) -> Result<(), AllocError>
    ensures ok { OnOk result (out.new.items ≡ out.old.items ++ map byte_of host.now) }
    ensures kept { OnErr result (take (length out.old.items) out.new.items ≡ out.old.items) }
{
    for unit in host {
        out.push((*unit % 256) as u8)?;
    }
    Ok(())
}
