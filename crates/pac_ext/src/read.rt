// Reading addresses.
ghost use Rattle.std.specs.Prelude.{◌≡◌, ◌≤◌, ◌+◌, ◌++◌, Some, IfSome, codes, length, option_and_then, replicate};
ghost use Rattle.arrayvec.specs.ArrayVec.{array_vec_len};
ghost use Rattle.utf16_text.specs.Search.{first_place};
ghost use Rattle.pac_ext.specs.Groups.{address_of};
ghost use Rattle.pac_ext.specs.Reading.{filled, ipv6_of, side_in};

use crate::group::address_of;
use crate::side::{COLON, Ending, side_in};
use arrayvec::ArrayVec;
use utf16_text::Text;

/// The address that an IPv6 text writes: eight groups of one to four hexadecimal digits, parted by colons. Once, `::`
/// may stand for one zero group or more, and the last two groups may be a dotted quad (RFC 4291, section 2.2).
pub fn quad6(text: &Text) -> Option<u128>
    ensures { result ≡ ipv6_of text.now }
{
    ipv6_in(text.units())
}

/// The same for the units of a text.
pub(crate) fn ipv6_in(units: &[u16]) -> Option<u128>
    ensures { result ≡ ipv6_of units.now }
{
    match gap_in(units) {
        Some(place) => around(&units[..place], &units[place + 2..]),
        None => full(units),
    }
}

// The address of eight groups.
fn full(units: &[u16]) -> Option<u128>
    ensures { result ≡ option_and_then address_of (side_in Ending.GroupOrQuad units.now) }
{
    let groups = side_in(units, Ending::GroupOrQuad)?;
    address_of(groups.as_slice())
}

// The address of what stands before `::` and behind it.
fn around(before: &[u16], behind: &[u16]) -> Option<u128>
    ensures { result ≡ filled (side_in Ending.Group before.now) (side_in Ending.GroupOrQuad behind.now) }
{
    let head = side_in(before, Ending::Group)?;
    let tail = side_in(behind, Ending::GroupOrQuad)?;
    filled(head, tail.as_slice())
}

// Where the first `::` stands.
fn gap_in(units: &[u16]) -> Option<usize>
    ensures place { result ≡ first_place (codes "::") units.now 0 }
    ensures within { IfSome result (λ place. place + 2 ≤ length units.now) }
{
    let mut place = 0;
    while place + 1 < units.len() {
        if units[place] == COLON && units[place + 1] == COLON {
            return Some(place);
        }
        place += 1;
    }
    None
}

// The address of two sides with zeros between them, where there is room for one at least.
fn filled(head: ArrayVec<u16, 8>, tail: &[u16]) -> Option<u128>
    ensures { result ≡ filled (Some head.items) (Some tail.now) }
{
    let length = head.len() + tail.len();
    if length > 7 {
        return None;
    }
    let mut groups = with_zeros(head, 8 - length);
    for group in tail {
        groups.push(*group);
    }
    address_of(groups.as_slice())
}

fn with_zeros(mut groups: ArrayVec<u16, 8>, count: usize) -> ArrayVec<u16, 8>
    requires { array_vec_len groups + count ≤ 8 }
    ensures { result.items ≡ groups.items ++ replicate count 0 }
{
    for _zero in 0..count {
        groups.push(0);
    }
    groups
}
