// Addresses of either family.
ghost use Rattle.std.specs.Prelude.{◌≡◌};
ghost use Rattle.pac_ext.specs.Prefixes.{ip_of, width_of};

use crate::quad::quad_of;
use crate::read::ipv6_in;

/// An address of either family, as a number of 32 bits or of 128.
#[derive(Clone, Copy)]
pub(crate) enum Address {
    V4(u32),
    V6(u128),
}

impl Address {
    /// How many bits an address of the family has.
    pub(crate) fn width(self) -> u32
        ensures { result ≡ width_of self }
    {
        match self {
            Address::V4(_) => 32,
            Address::V6(_) => 128,
        }
    }
}

/// The address that a dotted quad or an IPv6 text writes.
pub(crate) fn ip_in(units: &[u16]) -> Option<Address>
    ensures { result ≡ ip_of units.now }
{
    match quad_of(units) {
        Some(address) => Some(Address::V4(address)),
        None => Some(Address::V6(ipv6_in(units)?)),
    }
}
