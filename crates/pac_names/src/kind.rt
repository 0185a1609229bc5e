// The two families of addresses.
ghost use Rattle.std.specs.Prelude.{◌≡◌};
ghost use Rattle.pac_names.specs.Kinds.{version_of};

/// Of which family the addresses of a name are asked.
#[derive(Clone, Copy, Debug, PartialEq, Eq)]
pub enum NameKind {
    /// IPv4 addresses (RFC 1035, section 3.4.1).
    V4,
    /// IPv6 addresses (RFC 3596, section 2).
    V6,
}

impl NameKind {
    /// The version of the Internet Protocol, 4 or 6.
    pub fn version(self) -> u8
        ensures { result ≡ version_of self }
    {
        match self {
            NameKind::V4 => 4,
            NameKind::V6 => 6,
        }
    }
}
