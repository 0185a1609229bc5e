// The civil date and time of an instant.
ghost use Rattle.std.specs.Prelude.{◌≡◌, pos, neg_ℤ, IfOk};
ghost use Rattle.jiff_core.specs.Calendar.{IsBetween};
ghost use Rattle.jiff_core.specs.Weekday.{sunday_zero};
ghost use Rattle.pac_calendar.specs.Civil.{civil_of, IsCivilAt, AreMomentsAt};
ghost use Rattle.pac_calendar.specs.declared.showing.TheConstants.{LAST_MOMENT};

use crate::moment::{Civil, Moments};
use crate::zone::Zone;
use jiff::Timestamp;
use jiff::civil::{DateTime, Weekday};
use jiff::tz::Offset;
use std::alloc::Global;
use utf16_text::Memory;

/// The last moment of a command, in seconds since 1970-01-01T00:00:00Z: the last second of the year 9998 in a zone a day
/// behind.
pub const LAST_MOMENT: u64 = 253_370_764_799;

/// What clocks show at the instant that many seconds after 1970-01-01T00:00:00Z. It takes no memory.
pub fn moments(_alloc: Global, seconds: i64, zone: &Zone) -> Result<Moments, Memory>
    requires { IsBetween (pos 0) (pos LAST_MOMENT) seconds }
    ensures { IfOk result (λ m. AreMomentsAt seconds zone.now m) }
{
    let gmt = shown_at(seconds);
    let local = shown_at(seconds + i64::from(zone.seconds()));
    Ok(Moments { gmt, local })
}

fn shown_at(seconds: i64) -> Civil
    requires { IsBetween (neg_ℤ (pos 86_340)) (pos 253_370_851_139) seconds }
    ensures { IsCivilAt seconds result }
{
    let instant = Timestamp::from_second(seconds).unwrap();
    civil_of(Offset::UTC.to_datetime(instant))
}

fn civil_of(shown: DateTime) -> Civil
    ensures { result ≡ civil_of shown }
{
    let plain = shown.to_plain();
    Civil {
        year: i32::from(plain.date.year),
        month: plain.date.month,
        day: plain.date.day,
        weekday: sunday_first(shown.weekday()),
        hour: plain.time.hour,
        minute: plain.time.minute,
        second: plain.time.second,
    }
}

fn sunday_first(weekday: Weekday) -> u8
    ensures { result ≡ sunday_zero weekday }
{
    weekday.to_sunday_zero_offset() as u8
}
