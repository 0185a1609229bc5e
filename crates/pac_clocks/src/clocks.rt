// What clocks show.
ghost use Rattle.std.specs.Prelude.{◌≡◌, pos, IfOk};
ghost use Rattle.jiff_core.specs.Calendar.{IsBetween};
ghost use Rattle.pac_clocks.specs.Clocks.{moments_at, nearest};
ghost use Rattle.pac_calendar.specs.declared.showing.TheConstants.{LAST_MOMENT};

use pac_calendar::{LAST_MOMENT, Moments, Zone, moments};
use std::alloc::Global;
use utf16_text::Memory;

/// What clocks in GMT and in the zone show so many seconds after 1970-01-01T00:00:00Z, or at the nearest moment from
/// there to the last second of the year 9998.
pub fn shown(alloc: Global, seconds: i64, zone: Zone) -> Result<Moments, Memory>
    ensures { IfOk result (λ m. m ≡ moments_at (nearest seconds) zone) }
{
    // Its clause says how far a zone is from UTC.
    let _offset = zone.seconds();
    moments(alloc, in_range(seconds), &zone)
}

/// The nearest moment that a command may have.
fn in_range(seconds: i64) -> i64
    ensures value { result ≡ nearest seconds }
    ensures within { IsBetween (pos 0) (pos LAST_MOMENT) result }
{
    if seconds < 0 {
        0
    } else if seconds > LAST_MOMENT as i64 {
        LAST_MOMENT as i64
    } else {
        seconds
    }
}
