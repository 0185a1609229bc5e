// The zone of a command: one fixed offset.
ghost use Rattle.std.specs.Prelude.{◌≡◌, ◌≤◌, IfSome, pos};
ghost use Rattle.pac_calendar.specs.Zone.{zone_of_text, signed_seconds, two_digits};
ghost use Rattle.jiff_core.specs.Calendar.{IsWithin};

use std::marker::Model;

/// A fixed offset from UTC, under 24 hours. Contracts see it as its seconds.
#[derive(Clone, Copy, Debug)]
pub struct Zone {
    seconds: i32,
}

impl Model for Zone {
    ghost use Rattle.std.specs.Prelude.{ℤ};
    ghost use Rattle.jiff_core.specs.Calendar.{IsWithin};

    ghost Value = { ℤ };

    ghost view = { λ z. z.seconds };

    ghost inverse = { λ s. record { seconds = s } };

    ghost invariant = { λ z. IsWithin 86_340 z.seconds };
}

impl Zone {
    /// UTC itself.
    pub fn utc() -> Zone
        ensures { result ≡ pos 0 }
    {
        Zone { seconds: 0 }
    }

    /// The seconds that a clock of the zone shows more than one of UTC.
    pub fn seconds(self) -> i32
        ensures value { result ≡ self }
        ensures within { IsWithin 86_340 result }
    {
        self.seconds
    }
}

/// The zone that a text names: `UTC`, or a sign, two digits of hours up to 23, `:` and two digits of minutes up to 59.
pub fn read_zone(text: &str) -> Option<Zone>
    ensures { result ≡ zone_of_text text.now }
{
    match text.as_bytes() {
        b"UTC" => Some(Zone::utc()),
        [b'+', h1, h2, b':', m1, m2] => offset(*h1, *h2, *m1, *m2, false),
        [b'-', h1, h2, b':', m1, m2] => offset(*h1, *h2, *m1, *m2, true),
        _ => None,
    }
}

fn offset(h1: u8, h2: u8, m1: u8, m2: u8, is_behind: bool) -> Option<Zone>
    ensures { result ≡ signed_seconds is_behind (two_digits 23 h1 h2) (two_digits 59 m1 m2) }
{
    let hours = number(23, h1, h2)?;
    let minutes = number(59, m1, m2)?;
    let seconds = i32::from(hours) * 3600 + i32::from(minutes) * 60;
    Some(Zone {
        seconds: if is_behind { -seconds } else { seconds },
    })
}

fn number(most: u8, tens: u8, ones: u8) -> Option<u8>
    ensures value { result ≡ two_digits most tens ones }
    ensures within { IfSome result (λ n. n ≤ most) }
{
    if !tens.is_ascii_digit() || !ones.is_ascii_digit() {
        return None;
    }
    let value = (tens - b'0') * 10 + (ones - b'0');
    if value <= most { Some(value) } else { None }
}
