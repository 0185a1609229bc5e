// Prefixes: an address, and how many of its leading bits count.
ghost use Rattle.std.specs.Prelude.{◌≡◌, ◌-◌, ◌≤◌, ◌<◌, IfSome, Some, None, if◌then◌else◌};
ghost use Rattle.std.specs.Char.{is_ascii_digit};
ghost use Rattle.pac_ext.specs.Prefixes.{agree_above, agree_in, bits_in, is_in_prefix, prefix_of, width_of};

use crate::address::{Address, ip_in};
use crate::cut::cut_first;
use utf16_text::{Text, is_digit};

const SLASH: u16 = 47;

/// An address, and how many of its leading bits count: at most all of them.
#[derive(Clone, Copy)]
pub(crate) struct Prefix {
    address: Address,
    bits: u32,
}

/// Whether an address is in a prefix: both are of one family, and agree in as many leading bits as the prefix says. A
/// prefix is an address, `/` and one to three digits, at most 32 for a dotted quad and 128 for an IPv6 text (RFC 4291,
/// section 2.3). What is no address is in no prefix, and in what is no prefix there is no address.
pub fn in_prefix(address: &Text, prefix: &Text) -> bool
    ensures { result ≡ is_in_prefix address.now prefix.now }
{
    let Some(address) = ip_in(address.units()) else {
        return false;
    };
    let Some(prefix) = prefix_in(prefix.units()) else {
        return false;
    };
    agree_in(prefix.bits, address, prefix.address)
}

fn prefix_in(units: &[u16]) -> Option<Prefix>
    ensures value { result ≡ prefix_of units.now }
    ensures fits { IfSome result (λ prefix. prefix.bits ≤ width_of prefix.address) }
{
    let cut = cut_first(units, SLASH)?;
    let address = ip_in(cut.before)?;
    let bits = bits_in(cut.behind)?;
    if bits > address.width() {
        return None;
    }
    Some(Prefix { address, bits })
}

// The number of bits that one to three decimal digits write.
fn bits_in(units: &[u16]) -> Option<u32>
    ensures { result ≡ bits_in units.now }
{
    match units {
        [a] => Some(digit(*a)?),
        [a, b] => Some(digit(*a)? * 10 + digit(*b)?),
        [a, b, c] => Some((digit(*a)? * 10 + digit(*b)?) * 10 + digit(*c)?),
        _ => None,
    }
}

fn digit(unit: u16) -> Option<u32>
    ensures value { result ≡ (if is_ascii_digit unit then Some (unit - 48) else None) }
    ensures small { IfSome result (λ value. value < 10) }
{
    if is_digit(unit) {
        Some(u32::from(unit - 48))
    } else {
        None
    }
}

// Whether two addresses are of one family, and agree in so many leading bits.
fn agree_in(bits: u32, one: Address, other: Address) -> bool
    requires { bits ≤ width_of other }
    ensures { result ≡ agree_in bits one other }
{
    match (one, other) {
        (Address::V4(one), Address::V4(other)) => {
            agree_above(32 - bits, u128::from(one), u128::from(other))
        }
        (Address::V6(one), Address::V6(other)) => agree_above(128 - bits, one, other),
        _ => false,
    }
}

fn agree_above(bits: u32, one: u128, other: u128) -> bool
    requires { bits ≤ 128 }
    ensures { result ≡ agree_above bits one other }
{
    bits == 128 || one >> bits == other >> bits
}
