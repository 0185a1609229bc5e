// Ranges of weekdays.
ghost use Rattle.std.specs.Prelude.{◌≡◌};
ghost use Rattle.pac_calendar.specs.Weekdays.{is_in_weekday_range, is_in_weekday_form, is_in_days, weekday_of};

use crate::argument::{CalendarArg, clock, form, place};
use crate::moment::{Civil, Moments};
use crate::order::lies_within_round;

const WEEKDAYS: [[u8; 3]; 7] = [
    *b"SUN", *b"MON", *b"TUE", *b"WED", *b"THU", *b"FRI", *b"SAT",
];

/// Whether the moment lies in a range of weekdays (`weekdayRange`): one of `SUN MON TUE WED THU FRI SAT`, or from the
/// first of two to the second inclusive, past `SAT` to `SUN` where the first comes later. A last `GMT` chooses the
/// clock. Any other list of arguments is no range, and the answer is false.
pub fn weekday_range(now: &Moments, args: &[CalendarArg]) -> bool
    ensures { result ≡ is_in_weekday_range now.now args.now }
{
    is_in_form(clock(now, args), form(args))
}

fn is_in_form(now: Civil, form: &[CalendarArg]) -> bool
    ensures { result ≡ is_in_weekday_form now form.now }
{
    match form {
        [day] => is_in_week(now, weekday(day), weekday(day)),
        [from, to] => is_in_week(now, weekday(from), weekday(to)),
        _ => false,
    }
}

fn is_in_week(now: Civil, from: Option<i64>, to: Option<i64>) -> bool
    ensures { result ≡ is_in_days now from to }
{
    match (from, to) {
        (Some(from), Some(to)) => lies_within_round(&[from], &[to], &[i64::from(now.weekday)]),
        _ => false,
    }
}

// The weekday that an argument names, from 0 for Sunday.
fn weekday(arg: &CalendarArg) -> Option<i64>
    ensures { result ≡ weekday_of arg.now }
{
    let place = place(arg, &WEEKDAYS)?;
    Some(place as i64)
}
