// A message with its length before it.
ghost use Rattle.std.specs.Prelude.{◌≡◌, ◌≤◌, ◌++◌, drop, length};
ghost use Rattle.dns_message.specs.Question.{question_octets};
ghost use Rattle.dns_stream.specs.Frames.{frame_length, frame_octets, missing_octets};

use crate::limits::LONGEST_FRAME;
use byteorder::{BigEndian, ByteOrder};
use dns_message::write_query;
use pac_names::LookupName;

/// Writes the question for the address of a name under a number, with its length before it, at the buffer's front (RFC
/// 1035, section 4.2.2), and gives the length of both, which should be sent at once (RFC 7766, section 8). All other
/// octets stay.
///
/// ```text
///   0  1  2  3  4  5  6  7  8  9  0  1  2  3  4  5
/// +--+--+--+--+--+--+--+--+--+--+--+--+--+--+--+--+
/// |              length of the message            |
/// +--+--+--+--+--+--+--+--+--+--+--+--+--+--+--+--+
/// /                    the message                /
/// +--+--+--+--+--+--+--+--+--+--+--+--+--+--+--+--+
/// ```
pub fn write_frame(buffer: &mut [u8; 514], id: u16, name: &LookupName) -> usize
    ensures written { let frame = frame_octets (question_octets id name.now) in buffer.new ≡ frame ++ drop (length frame) buffer.old }
    ensures length { result ≡ length (frame_octets (question_octets id name.now)) }
    ensures room { result ≤ 273 }
{
    let mut question = [0; 512];
    let length = write_query(&mut question, id, name);
    BigEndian::write_u16(buffer, length as u16);
    buffer[2..2 + length].copy_from_slice(&question[..length]);
    2 + length
}

/// How many octets are missing from the length at the front, or else from its message.
pub(crate) fn missing(octets: &[u8]) -> usize
    ensures missing { result ≡ missing_octets octets.now }
    ensures room { frame_length octets.now ≤ LONGEST_FRAME }
{
    if octets.len() < 2 {
        return 2 - octets.len();
    }
    let length = BigEndian::read_u16(octets);
    (2 + usize::from(length)).saturating_sub(octets.len())
}
