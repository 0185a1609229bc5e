// Groups: four hexadecimal digits, and eight of them in an address.
ghost use Rattle.std.specs.Prelude.{◌≡◌, ◌<◌, ◌/◌, ◌%◌, ◌^◌, ◌*◌, ◌+◌, ◌∷◌, [], IfSome, Some, None, if◌then◌else◌};
ghost use Rattle.utf16_text.specs.Digits.{digit_of, is_hexadecimal};
ghost use Rattle.pac_ext.specs.Groups.{address_of, group_in, groups_of};

use utf16_text::{digit_of, is_hexadecimal};

// The digit `0`, which stands for each digit that is left out at the front.
const ZERO: u16 = 48;

/// The group that one to four hexadecimal digits write.
pub(crate) fn group_in(piece: &[u16]) -> Option<u16>
    ensures { result ≡ group_in piece.now }
{
    match piece {
        [d] => four_digits(ZERO, ZERO, ZERO, *d),
        [c, d] => four_digits(ZERO, ZERO, *c, *d),
        [b, c, d] => four_digits(ZERO, *b, *c, *d),
        [a, b, c, d] => four_digits(*a, *b, *c, *d),
        _ => None,
    }
}

fn four_digits(a: u16, b: u16, c: u16, d: u16) -> Option<u16>
    ensures { result ≡ group_in (a ∷ b ∷ c ∷ d ∷ []) }
{
    let first = digit(a)?;
    let second = digit(b)?;
    let third = digit(c)?;
    let fourth = digit(d)?;
    Some(((first * 16 + second) * 16 + third) * 16 + fourth)
}

fn digit(unit: u16) -> Option<u16>
    ensures value { result ≡ (if is_hexadecimal unit then Some (digit_of unit) else None) }
    ensures small { IfSome result (λ value. value < 16) }
{
    if is_hexadecimal(unit) {
        Some(digit_of(unit))
    } else {
        None
    }
}

/// The address of eight groups, the first one highest.
pub(crate) fn address_of(groups: &[u16]) -> Option<u128>
    ensures { result ≡ address_of groups.now }
{
    let [a, b, c, d, e, f, g, h] = groups else {
        return None;
    };
    let high = half(*a, *b, *c, *d);
    let low = half(*e, *f, *g, *h);
    Some(u128::from(high) * 18_446_744_073_709_551_616 + u128::from(low))
}

fn half(a: u16, b: u16, c: u16, d: u16) -> u64
    ensures { result ≡ ((a * 65536 + b) * 65536 + c) * 65536 + d }
{
    let upper = u32::from(a) * 65536 + u32::from(b);
    let lower = u32::from(c) * 65536 + u32::from(d);
    u64::from(upper) * 4_294_967_296 + u64::from(lower)
}

/// The eight groups of an address, the highest first.
pub(crate) fn groups_of(address: u128) -> [u16; 8]
    ensures { result ≡ groups_of address }
{
    [
        group_above(address, 112),
        group_above(address, 96),
        group_above(address, 80),
        group_above(address, 64),
        group_above(address, 48),
        group_above(address, 32),
        group_above(address, 16),
        group_above(address, 0),
    ]
}

// The group above so many bits.
fn group_above(address: u128, bits: u32) -> u16
    requires { bits < 128 }
    ensures { result ≡ address / 2 ^ bits % 65536 }
{
    ((address >> bits) % 65536) as u16
}
