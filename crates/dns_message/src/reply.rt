// Replies to the question for the address of a name.
ghost use Rattle.std.specs.Prelude.{◌≡◌, ◌+◌, ◌<◌, ◌≤◌, ◌^◌, ◌++◌, Some, drop, length, take};
ghost use Rattle.byteorder.specs.Endian.{big_bytes};
ghost use Rattle.dns_name.specs.Writing.{overwritten};
ghost use Rattle.dns_message.specs.Reply.{answer_for, answer_octets, record_front, reply_octets, reply_of};

use crate::chain::{Section, follow, is_readable};
use crate::header::Header;
use crate::numbers::{write_u16, write_u32, write_u128};
use crate::question::{CLASS_IN, TYPE_A, TYPE_AAAA, read_question, write_question};
use pac_names::{Answer, LookupName, NameKind};

/// The RCODE of a name error: the name does not exist (RFC 1035, section 4.1.1).
const NAME_ERROR: u8 = 3;

/// The answer that a datagram gives to the question with this number and name, or nothing where it is no reply to it:
/// not a whole response, to another question, with another error than a name error, or with a record that can't be
/// read.
pub fn read_reply(datagram: &[u8], id: u16, name: &LookupName) -> Option<Answer>
    ensures { result ≡ reply_of datagram.now id name.now }
{
    let header = Header::read(datagram)?;
    if !header.is_response_to(id) {
        return None;
    }
    let at = read_question(datagram, name)?;
    if header.rcode == NAME_ERROR {
        return Some(Answer::NoAddress);
    }
    let section = Section {
        at,
        count: header.ancount,
        kind: name.kind(),
    };
    if !is_readable(datagram, section) {
        return None;
    }
    Some(follow(datagram, section, 12))
}

/// Writes the response that tells an answer to the question with this number and name at the buffer's front, and gives
/// its length. An address of the other family than the name asks for is told as none. All other octets stay.
pub fn write_reply(buffer: &mut [u8; 512], id: u16, name: &LookupName, answer: Answer) -> usize
    ensures written { let octets = reply_octets id name.now answer in buffer.new ≡ octets ++ drop (length octets) buffer.old }
    ensures length { result ≡ length (reply_octets id name.now answer) }
    ensures room { result ≤ 299 }
    ensures told { reply_of (take result buffer.new) id name.now ≡ Some (answer_for name.now.kind answer) }
{
    match answer_for(name.kind(), answer) {
        Answer::Address(address) => {
            Header::response(id, true).write(buffer);
            let at = write_question(buffer, name);
            write_address(buffer, at, address)
        }
        Answer::Address6(address) => {
            Header::response(id, true).write(buffer);
            let at = write_question(buffer, name);
            write_address6(buffer, at, address)
        }
        Answer::NoAddress => {
            Header::response(id, false).write(buffer);
            write_question(buffer, name)
        }
    }
}

// The answer to a question for the addresses of a family.
fn answer_for(kind: NameKind, answer: Answer) -> Answer
    ensures { result ≡ answer_for kind answer }
{
    match (kind, answer) {
        (NameKind::V4, Answer::Address(_)) | (NameKind::V6, Answer::Address6(_)) => answer,
        _ => Answer::NoAddress,
    }
}

// Writes the record of an address, whose name is the question's, and gives the offset behind it.
fn write_address(buffer: &mut [u8; 512], at: usize, address: u32) -> usize
    requires { at ≤ 271 }
    ensures written { buffer.new ≡ overwritten buffer.old at (answer_octets (Answer.Address address)) }
    ensures behind { result ≡ at + 16 }
    ensures fits { address < 2 ^ 32 }
{
    let at = write_record_front(buffer, at, TYPE_A, 4);
    write_u32(buffer, at, address)
}

// The same for an IPv6 address (RFC 3596, section 2.2).
fn write_address6(buffer: &mut [u8; 512], at: usize, address: u128) -> usize
    requires { at ≤ 271 }
    ensures written { buffer.new ≡ overwritten buffer.old at (answer_octets (Answer.Address6 address)) }
    ensures behind { result ≡ at + 28 }
    ensures fits { address < 2 ^ 128 }
{
    let at = write_record_front(buffer, at, TYPE_AAAA, 16);
    write_u128(buffer, at, address)
}

// Writes what stands before the data of a record, whose name is the question's, and gives the offset behind it.
fn write_record_front(buffer: &mut [u8; 512], at: usize, record_type: u16, rdlength: u16) -> usize
    requires { at ≤ 271 }
    ensures written { buffer.new ≡ overwritten buffer.old at (record_front record_type rdlength) }
    ensures behind { result ≡ at + 12 }
{
    let at = write_u16(buffer, at, 0xc00c);
    let at = write_u16(buffer, at, record_type);
    let at = write_u16(buffer, at, CLASS_IN);
    let at = write_u32(buffer, at, 60);
    write_u16(buffer, at, rdlength)
}
