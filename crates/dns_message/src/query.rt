// The message that asks for the address of a name.
ghost use Rattle.std.specs.Prelude.{◌≡◌, ◌<◌, ◌≤◌, ◌^◌, ◌++◌, ℕ, IfSome, IsTrue, Some, drop, length};
ghost use Rattle.pac_names.specs.Names.{Name, is_lookup_name};
ghost use Rattle.dns_message.specs.Question.{asked_octets, question_octets};
ghost use Rattle.dns_message.specs.Dotted.{dotted};

use crate::header::Header;
use crate::numbers::read_u16;
use crate::question::{TYPE_A, TYPE_AAAA, write_question};
use arrayvec::ArrayVec;
use pac_names::{LookupName, NameKind};

/// Writes the question for the address of a name under a number at the buffer's front (RFC 1035, section 4.1), and
/// gives its length. All other octets stay.
pub fn write_query(buffer: &mut [u8; 512], id: u16, name: &LookupName) -> usize
    ensures written { let octets = question_octets id name.now in buffer.new ≡ octets ++ drop (length octets) buffer.old }
    ensures length { result ≡ length (question_octets id name.now) }
    ensures room { result ≤ 271 }
{
    Header::query(id).write(buffer);
    write_question(buffer, name)
}

/// The number and the name that a datagram asks for, of the kind that its type tells, where it is the question that
/// `write_query` writes, octet for octet.
pub fn read_query(datagram: &[u8]) -> Option<(u16, LookupName)>
    // What is read is the datagram's question.
    ensures found { IfSome result (λ asked. datagram.now ≡ question_octets asked.0 asked.1) }
    // What was written is read back.
    ensures back { (id : ℕ) (name : Name) → id < 2 ^ 16 → IsTrue (is_lookup_name name)
        → datagram.now ≡ question_octets id name → result ≡ Some (id, name) }
{
    let name = plain_name(datagram)?;
    let id = read_u16(datagram, 0);
    let mut buffer = [0; 512];
    let length = write_query(&mut buffer, id, &name);
    if &buffer[..length] == datagram {
        Some((id, name))
    } else {
        None
    }
}

// The name that stands without pointers in a question behind a header; anything else may give any name.
fn plain_name(datagram: &[u8]) -> Option<LookupName>
    ensures named { (name : Name) → IsTrue (is_lookup_name name) → drop 12 datagram.now ≡ asked_octets name
        → result ≡ Some name }
    ensures long { IfSome result (λ name. 17 ≤ length datagram.now) }
{
    // The name ends in the root's octet, and QTYPE and QCLASS take four.
    if datagram.len() < 17 {
        return None;
    }
    if datagram.len() > 271 {
        return None;
    }
    let kind = plain_kind(datagram)?;
    let labels = &datagram[12..datagram.len() - 5];
    let (first, rest) = labels.split_first()?;
    let name = LookupName::from_bytes(dots(*first, rest).as_slice())?;
    Some(name.with_kind(kind))
}

// The kind of name that a question asks for whose QTYPE and QCLASS are the datagram's last four octets.
fn plain_kind(datagram: &[u8]) -> Option<NameKind>
    requires { 17 ≤ length datagram.now }
    ensures { (name : Name) → drop 12 datagram.now ≡ asked_octets name → result ≡ Some name.kind }
{
    let asked = read_u16(datagram, datagram.len() - 4);
    if asked == TYPE_A {
        Some(NameKind::V4)
    } else if asked == TYPE_AAAA {
        Some(NameKind::V6)
    } else {
        None
    }
}

// Labels with a dot in the place of each length but the first one's.
fn dots(first: u8, rest: &[u8]) -> ArrayVec<u8, 253>
    requires { length rest.now ≤ 253 }
    ensures { result.items ≡ dotted first rest.now }
{
    let mut bytes = ArrayVec::new();
    let mut left = first;
    for octet in rest {
        if left == 0 {
            bytes.push(b'.');
            left = *octet;
        } else {
            bytes.push(*octet);
            left -= 1;
        }
    }
    bytes
}
