// The question to which a datagram belongs.
ghost use Rattle.std.specs.Prelude.{◌≡◌, ◌<◌, IfSome, None, length};
ghost use Rattle.dns_message.specs.Numbers.{number_at};
ghost use Rattle.stub_poller.specs.Slots.{cut_here, first_in, places_in, replied};

use crate::slot::Slot;
use pac_names::{Answer, LookupName};
use poll_log::Question;

/// What a place in the row has of what is looked for.
#[derive(Drop)]
pub(crate) struct Found<T> {
    pub(crate) at: usize,
    pub(crate) what: T,
}

/// The number of a message, its first two octets (RFC 1035, section 4.1.1).
pub(crate) fn number_of(datagram: &[u8]) -> Option<u16>
    ensures short { result ≡ None → length datagram.now < 2 }
    ensures number { IfSome result (λ number. number ≡ number_at datagram.now 0) }
{
    match datagram {
        [high, low, ..] => Some(u16::from(*high) * 256 + u16::from(*low)),
        _ => None,
    }
}

/// The first question to which the datagram is a reply. It is looked for at the places of the datagram's number alone.
pub(crate) fn first_answered(
    row: &[Slot],
    places: &[usize],
    datagram: &[u8],
) -> Option<Found<(LookupName, Answer)>>
    requires { places.now ≡ places_in (number_at datagram.now 0) row.now }
    ensures { result ≡ first_in (replied datagram.now) row.now }
{
    for place in places {
        let at = *place;
        if let Some(what) = row[at].answered(datagram) {
            return Some(Found { at, what });
        }
    }
    None
}

/// The first question to which the datagram is the truncated response, looked for likewise.
pub(crate) fn first_truncated(
    row: &[Slot],
    places: &[usize],
    datagram: &[u8],
) -> Option<Found<Question>>
    requires { places.now ≡ places_in (number_at datagram.now 0) row.now }
    ensures { result ≡ first_in (cut_here datagram.now) row.now }
{
    for place in places {
        let at = *place;
        if let Some(what) = row[at].cut(datagram) {
            return Some(Found { at, what });
        }
    }
    None
}
