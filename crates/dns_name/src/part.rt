// The parts of a name in a message.
ghost use Rattle.std.specs.Prelude.{◌≡◌};
ghost use Rattle.dns_name.specs.Walk.{IsWhole};
ghost use Rattle.dns_name.specs.Wire.{part_at};

/// What stands at an offset where a name goes on (RFC 1035, section 4.1.4).
#[derive(Clone, Copy)]
pub(crate) enum Part {
    /// The zero octet of the root, which ends the name.
    End,
    /// A label of so many octets, which stand behind this one.
    Label(usize),
    /// A pointer of two octets to an offset.
    Pointer(usize),
    /// No part of a name, or one that the message's end cuts.
    Neither,
}

/// ```text
///   0  1  2  3  4  5  6  7  8  9  0  1  2  3  4  5
/// +--+--+--+--+--+--+--+--+--+--+--+--+--+--+--+--+
/// | 1  1|                OFFSET                   |
/// +--+--+--+--+--+--+--+--+--+--+--+--+--+--+--+--+
/// ```
#[tactic(auto, unfolding(crate::specs::Wire::part_at))]
pub(crate) fn read_part(message: &[u8], at: usize) -> Part
    ensures part { result ≡ part_at message.now at }
    ensures whole { IsWhole message.now at result }
{
    if at >= message.len() {
        return Part::Neither;
    }
    let first = usize::from(message[at]);
    let is_label = first < 64;
    if first == 0 {
        Part::End
    } else if is_label && at + first < message.len() {
        Part::Label(first)
    } else if first >= 192 && at + 1 < message.len() {
        Part::Pointer((first - 192) * 256 + usize::from(message[at + 1]))
    } else {
        Part::Neither
    }
}
