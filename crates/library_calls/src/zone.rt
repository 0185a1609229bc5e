// Zones by their minutes.
ghost use Rattle.std.specs.Prelude.{◌≡◌, ◌<◌, ◌+◌, ◌*ℤ◌, pos, Some, None, if◌then◌else◌};
ghost use Rattle.pac_calendar.specs.Zone.{zone_of_text};
ghost use Rattle.library_calls.specs.Settings.{is_zone};
ghost use Rattle.library_calls.specs.Zones.{zone_text};

use pac_calendar::{Zone, read_zone};
use std::str;

/// The zone so many minutes east of UTC, where it is under a day away.
pub(crate) fn zone_east(minutes: i32) -> Option<Zone>
    ensures { result ≡ (if is_zone minutes then Some (minutes *ℤ pos 60) else None) }
{
    let away = minutes.unsigned_abs();
    if away >= 24 * 60 {
        None
    } else if minutes < 0 {
        written_zone(b'-', away)
    } else {
        written_zone(b'+', away)
    }
}

// The zone of this sign, so many minutes away, by the text that words would have.
fn written_zone(sign: u8, away: u32) -> Option<Zone>
    requires ascii { sign < 128 }
    requires near { away < 1440 }
    ensures { result ≡ zone_of_text (zone_text sign away) }
{
    let hours = away / 60;
    let minutes = away % 60;
    let text = [
        sign,
        digit(hours / 10),
        digit(hours % 10),
        b':',
        digit(minutes / 10),
        digit(minutes % 10),
    ];
    match str::from_utf8(&text) {
        Ok(text) => read_zone(text),
        Err(_) => unreachable!("it is ASCII"),
    }
}

fn digit(number: u32) -> u8
    requires { number < 10 }
    ensures { result ≡ 48 + number }
{
    b'0' + number as u8
}
