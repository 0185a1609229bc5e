// Behind a name.
ghost use Rattle.std.specs.Prelude.{◌≡◌, ◌≤◌, IfSome, IsSome, length, max};
ghost use Rattle.dns_name.specs.Wire.{behind_of, name_at};

use crate::part::{Part, read_part};

/// The offset behind the name at an offset, or nothing where no name stands there.
pub fn skip_name(message: &[u8], at: usize) -> Option<usize>
    ensures behind { result ≡ behind_of (name_at message.now at) }
    ensures within { IfSome result (λ behind. behind ≤ length message.now) }
{
    let mut piece = at;
    let mut at = at;
    let mut length = 1;
    let mut behind = None;
    'parts: loop {
        match read_part(message, at) {
            Part::End => return behind.or(Some(at + 1)),
            Part::Label(octets) => {
                length += octets + 1;
                if length > 255 {
                    return None;
                }
                at += octets + 1;
            }
            Part::Pointer(target) => {
                if target >= piece {
                    return None;
                }
                behind = behind.or(Some(at + 2));
                piece = target;
                at = target;
            }
            Part::Neither => return None,
        }
    }
}

/// The offset behind the name at an offset where one is known to stand: its pointers are not followed.
pub fn name_end(message: &[u8], at: usize) -> usize
    requires { IsSome (name_at message.now at) }
    ensures behind { IfSome (behind_of (name_at message.now at)) (λ behind. result ≡ behind) }
    ensures within { result ≤ max at (length message.now) }
{
    let mut at = at;
    'parts: loop {
        match read_part(message, at) {
            Part::End => return at + 1,
            Part::Label(octets) => at += octets + 1,
            Part::Pointer(_target) => return at + 2,
            Part::Neither => return at,
        }
    }
}
