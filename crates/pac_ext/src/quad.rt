// Dotted quads in units.
ghost use Rattle.std.specs.Prelude.{◌≡◌, IfNone, IfSome, None};
ghost use Rattle.pac_names.specs.Quads.{quad_of};

use arrayvec::ArrayVec;
use pac_names::quad_in;

/// The address that a dotted quad writes.
pub(crate) fn quad_of(units: &[u16]) -> Option<u32>
    ensures { result ≡ quad_of units.now }
{
    let bytes = quad_bytes(units)?;
    quad_in(bytes.as_slice())
}

// The units as bytes, where there are at most 15 and each is below 128. No other text is a dotted quad.
fn quad_bytes(units: &[u16]) -> Option<ArrayVec<u8, 15>>
    ensures same { IfSome result (λ bytes. bytes.items ≡ units.now) }
    ensures no_quad { IfNone result (quad_of units.now ≡ None) }
{
    if units.len() > 15 {
        return None;
    }
    let mut bytes = ArrayVec::new();
    for unit in units {
        if *unit >= 128 {
            return None;
        }
        bytes.push(*unit as u8);
    }
    Some(bytes)
}
