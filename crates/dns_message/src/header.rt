// The header of a message.
ghost use Rattle.std.specs.Prelude.{◌≡◌, ◌+◌, ◌<◌, ◌≤◌, length, IfNone, IfSome};
ghost use Rattle.dns_name.specs.Writing.{overwritten};
ghost use Rattle.dns_message.specs.Header.{
  bit,
  flags_of,
  has_bit,
  header_octets,
  header_of,
  is_response_to,
  is_truncated_response_to,
  query_header,
  response_header,
};

use crate::numbers::{read_u16, write_u16};

/// The header of a message (RFC 1035, section 4.1.1), twelve octets.
///
/// ```text
///   0  1  2  3  4  5  6  7  8  9  0  1  2  3  4  5
/// +--+--+--+--+--+--+--+--+--+--+--+--+--+--+--+--+
/// |                      ID                       |
/// +--+--+--+--+--+--+--+--+--+--+--+--+--+--+--+--+
/// |QR|   Opcode  |AA|TC|RD|RA|   Z    |   RCODE   |
/// +--+--+--+--+--+--+--+--+--+--+--+--+--+--+--+--+
/// |                    QDCOUNT                    |
/// +--+--+--+--+--+--+--+--+--+--+--+--+--+--+--+--+
/// |                    ANCOUNT                    |
/// +--+--+--+--+--+--+--+--+--+--+--+--+--+--+--+--+
/// |                    NSCOUNT                    |
/// +--+--+--+--+--+--+--+--+--+--+--+--+--+--+--+--+
/// |                    ARCOUNT                    |
/// +--+--+--+--+--+--+--+--+--+--+--+--+--+--+--+--+
/// ```
#[derive(Clone, Copy)]
pub(crate) struct Header {
    pub(crate) id: u16,
    pub(crate) qr: bool,
    pub(crate) opcode: u8,
    pub(crate) aa: bool,
    pub(crate) tc: bool,
    pub(crate) rd: bool,
    pub(crate) ra: bool,
    pub(crate) z: u8,
    pub(crate) rcode: u8,
    pub(crate) qdcount: u16,
    pub(crate) ancount: u16,
    pub(crate) nscount: u16,
    pub(crate) arcount: u16,
}

impl Header {
    /// The header of a query with one question, which asks for recursion.
    pub(crate) fn query(id: u16) -> Header
        ensures { result ≡ query_header id }
    {
        Header {
            id,
            qr: false,
            opcode: 0,
            aa: false,
            tc: false,
            rd: true,
            ra: false,
            z: 0,
            rcode: 0,
            qdcount: 1,
            ancount: 0,
            nscount: 0,
            arcount: 0,
        }
    }

    /// The header of the response to it: with one answer, or with a name error and none.
    pub(crate) fn response(id: u16, found: bool) -> Header
        ensures { result ≡ response_header id found }
    {
        Header {
            qr: true,
            ra: true,
            rcode: if found { 0 } else { 3 },
            ancount: if found { 1 } else { 0 },
            ..Header::query(id)
        }
    }

    /// The header of a message, where its twelve octets are there.
    pub(crate) fn read(message: &[u8]) -> Option<Header>
        ensures some { IfSome result (λ header. header ≡ header_of message.now) }
        ensures whole { IfSome result (λ header. 12 ≤ length message.now) }
        ensures none { IfNone result (length message.now < 12) }
    {
        if message.len() < 12 {
            return None;
        }
        let flags = read_u16(message, 2);
        Some(Header {
            id: read_u16(message, 0),
            qr: is_set(flags, 32768),
            opcode: (flags / 2048 % 16) as u8,
            aa: is_set(flags, 1024),
            tc: is_set(flags, 512),
            rd: is_set(flags, 256),
            ra: is_set(flags, 128),
            z: (flags / 16 % 8) as u8,
            rcode: (flags % 16) as u8,
            qdcount: read_u16(message, 4),
            ancount: read_u16(message, 6),
            nscount: read_u16(message, 8),
            arcount: read_u16(message, 10),
        })
    }

    /// Writes the header at the front, and gives the offset behind it.
    pub(crate) fn write(&self, buffer: &mut [u8; 512]) -> usize
        requires opcode { self.now.opcode < 16 }
        requires z { self.now.z < 8 }
        requires rcode { self.now.rcode < 16 }
        ensures written { buffer.new ≡ overwritten buffer.old 0 (header_octets self.now) }
        ensures behind { result ≡ 12 }
    {
        let at = write_u16(buffer, 0, self.id);
        let at = write_u16(buffer, at, self.flags());
        let at = write_u16(buffer, at, self.qdcount);
        let at = write_u16(buffer, at, self.ancount);
        let at = write_u16(buffer, at, self.nscount);
        write_u16(buffer, at, self.arcount)
    }

    fn flags(&self) -> u16
        requires opcode { self.now.opcode < 16 }
        requires z { self.now.z < 8 }
        requires rcode { self.now.rcode < 16 }
        ensures { result ≡ flags_of self.now }
    {
        let high = weight_of(self.qr, 32768)
            + u16::from(self.opcode) * 2048
            + weight_of(self.aa, 1024);
        let low = weight_of(self.tc, 512) + weight_of(self.rd, 256) + weight_of(self.ra, 128);
        high + low + u16::from(self.z) * 16 + u16::from(self.rcode)
    }

    /// Whether this is the header of a whole response to the query with this number: without an error or with a name
    /// error, and with its one question.
    pub(crate) fn is_response_to(&self, id: u16) -> bool
        ensures { result ≡ is_response_to self.now id }
    {
        self.id == id
            && self.qr
            && self.opcode == 0
            && !self.tc
            && (self.rcode == 0 || self.rcode == 3)
            && self.qdcount == 1
    }

    /// Whether this is the header of a truncated response to the query with this number, with its one question,
    /// whatever error it tells.
    pub(crate) fn is_truncated_response_to(&self, id: u16) -> bool
        ensures { result ≡ is_truncated_response_to self.now id }
    {
        self.id == id && self.qr && self.opcode == 0 && self.tc && self.qdcount == 1
    }
}

fn is_set(flags: u16, weight: u16) -> bool
    requires { 0 < weight }
    ensures { result ≡ has_bit flags weight }
{
    flags / weight % 2 == 1
}

fn weight_of(set: bool, weight: u16) -> u16
    ensures { result ≡ bit set weight }
{
    if set { weight } else { 0 }
}
