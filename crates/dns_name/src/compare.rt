// Names compared in place, ASCII case aside (RFC 1035, section 2.3.3).
ghost use Rattle.std.specs.Prelude.{◌≡◌};
ghost use Rattle.dns_name.specs.Wire.{is_same_name, spells_name};

use crate::place::{Next, Place, next_label};
use pac_names::{LookupName, split_label};

/// Whether names stand at both offsets and are equal, ASCII case aside.
pub fn same_name(message: &[u8], a: usize, b: usize) -> bool
    ensures { result ≡ is_same_name message.now a b }
{
    let mut left = Place { piece: a, at: a };
    let mut right = Place { piece: b, at: b };
    let mut length = 1;
    'labels: loop {
        match (next_label(message, left), next_label(message, right)) {
            (Next::Label(label, behind), Next::Label(other, behind_other)) => {
                length += label.len() + 1;
                if length > 255 || !label.eq_ignore_ascii_case(other) {
                    return false;
                }
                left = behind;
                right = behind_other;
            }
            (Next::End, Next::End) => return true,
            _ => return false,
        }
    }
}

/// Whether the name at an offset is the lookup name, ASCII case aside.
pub fn spells(message: &[u8], at: usize, name: &LookupName) -> bool
    ensures { result ≡ spells_name message.now at name.now.text }
{
    let mut place = Place { piece: at, at };
    let mut rest = Some(name.bytes());
    'labels: while let Some(bytes) = rest {
        let (label, others) = split_label(bytes);
        let Next::Label(found, behind) = next_label(message, place) else {
            return false;
        };
        if !found.eq_ignore_ascii_case(label) {
            return false;
        }
        place = behind;
        rest = others;
    }
    matches!(next_label(message, place), Next::End)
}
