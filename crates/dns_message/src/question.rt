// The question for the address of a name.
ghost use Rattle.std.specs.Prelude.{◌≡◌, ◌+◌, ◌≤◌, length, IsTrue};
ghost use Rattle.pac_names.specs.Names.{is_lookup_name};
ghost use Rattle.dns_name.specs.Writing.{overwritten};
ghost use Rattle.dns_message.specs.Question.{asked_octets, question_end, type_of};

use crate::numbers::{read_u16, write_u16};
use dns_name::{name_end, spells, write_name};
use pac_names::{LookupName, NameKind};

/// The type of a record with a host address (RFC 1035, section 3.2.2).
pub(crate) const TYPE_A: u16 = 1;

/// The type of a record with an IPv6 host address (RFC 3596, section 2.1).
pub(crate) const TYPE_AAAA: u16 = 28;

/// The type of a record with the canonical name for an alias.
pub(crate) const TYPE_CNAME: u16 = 5;

/// The class of the Internet (RFC 1035, section 3.2.4).
pub(crate) const CLASS_IN: u16 = 1;

/// The type of the records with the addresses of a family.
pub(crate) fn type_of(kind: NameKind) -> u16
    ensures { result ≡ type_of kind }
{
    match kind {
        NameKind::V4 => TYPE_A,
        NameKind::V6 => TYPE_AAAA,
    }
}

/// Writes the question behind the header (RFC 1035, section 4.1.2), and gives the offset behind it.
///
/// ```text
///   0  1  2  3  4  5  6  7  8  9  0  1  2  3  4  5
/// +--+--+--+--+--+--+--+--+--+--+--+--+--+--+--+--+
/// /                     QNAME                     /
/// +--+--+--+--+--+--+--+--+--+--+--+--+--+--+--+--+
/// |                     QTYPE                     |
/// +--+--+--+--+--+--+--+--+--+--+--+--+--+--+--+--+
/// |                     QCLASS                    |
/// +--+--+--+--+--+--+--+--+--+--+--+--+--+--+--+--+
/// ```
pub(crate) fn write_question(buffer: &mut [u8; 512], name: &LookupName) -> usize
    ensures written { buffer.new ≡ overwritten buffer.old 12 (asked_octets name.now) }
    ensures behind { result ≡ 12 + length (asked_octets name.now) }
    ensures room { result ≤ 271 }
    ensures kept { IsTrue (is_lookup_name name.now) }
{
    let at = write_name(buffer, 12, name);
    let at = write_u16(buffer, at, type_of(name.kind()));
    write_u16(buffer, at, CLASS_IN)
}

/// The offset behind the question, where it asks for the address of the name.
pub(crate) fn read_question(datagram: &[u8], name: &LookupName) -> Option<usize>
    ensures { result ≡ question_end datagram.now name.now }
{
    if !spells(datagram, 12, name) {
        return None;
    }
    let at = name_end(datagram, 12);
    let asks = at + 4 <= datagram.len()
        && read_u16(datagram, at) == type_of(name.kind())
        && read_u16(datagram, at + 2) == CLASS_IN;
    if asks { Some(at + 4) } else { None }
}
