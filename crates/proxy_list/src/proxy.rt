// Proxies.
ghost use Rattle.std.specs.Prelude.{◌≡◌, IfOk};
ghost use Rattle.proxy_list.specs.Proxies.{is_direct};

use std::alloc::Global;
use utf16_text::{Memory, Text};

/// How a proxy is spoken to. `Direct` is no proxy.
#[derive(Clone, Copy, Debug, PartialEq, Eq, PartialOrd, Ord)]
pub enum ProxyKind {
    Direct,
    Http,
    Https,
    Socks4,
    Socks5,
}

impl ProxyKind {
    /// Whether it is no proxy.
    pub fn is_direct(self) -> bool
        ensures { result ≡ is_direct self }
    {
        matches!(self, ProxyKind::Direct)
    }
}

/// A proxy: its kind, its host in lower case, in brackets where it has a `:`, and its port from 1. `Direct` has an
/// empty host and the port 0.
#[derive(PartialEq, Eq, PartialOrd, Ord, Drop)]
pub struct Proxy {
    pub kind: ProxyKind,
    pub host: Text,
    pub port: u16,
}

impl Proxy {
    /// The same proxy. It shares the host's units.
    pub fn copy(&self, alloc: Global) -> Result<Proxy, Memory>
        ensures { IfOk result (λ proxy. proxy ≡ self.now) }
    {
        Ok(Proxy {
            kind: self.kind,
            host: self.host.copy(alloc)?,
            port: self.port,
        })
    }
}
