// Responses that were cut to fit a datagram.
ghost use Rattle.std.specs.Prelude.{◌≡◌};
ghost use Rattle.dns_message.specs.Truncation.{is_truncated};

use crate::header::Header;
use crate::question::read_question;
use pac_names::LookupName;

/// Whether a datagram is the truncated response to the question with this number and name, whatever error it tells and
/// whatever records it has (RFC 1035, section 4.1.1). The whole response is to be asked for over a stream (section
/// 4.2.1; RFC 7766, section 5).
pub fn truncated(datagram: &[u8], id: u16, name: &LookupName) -> bool
    ensures { result ≡ is_truncated datagram.now id name.now }
{
    match Header::read(datagram) {
        None => false,
        Some(header) => {
            header.is_truncated_response_to(id) && read_question(datagram, name).is_some()
        }
    }
}
