// Ranges of times.
ghost use Rattle.std.specs.Prelude.{◌≡◌};
ghost use Rattle.pac_calendar.specs.Times.{
  is_in_time_range,
  is_in_time_form,
  is_hour,
  number_below,
  within_limit,
  hour_at,
  minute_at,
  second_at,
  time_of,
  is_between,
};

use crate::argument::{CalendarArg, clock, form};
use crate::moment::{Civil, Moments};
use crate::order::lies_in_span;

/// Whether the moment lies in a range of times (`timeRange`): one hour is that whole hour; two hours, two hours with
/// minutes, or two hours with minutes and seconds are the ends of a range, from the first up to and without the second,
/// past midnight where the first comes later, and empty where they are equal. A last `GMT` chooses the clock. Any other
/// list of arguments is no range, and the answer is false.
pub fn time_range(now: &Moments, args: &[CalendarArg]) -> bool
    ensures { result ≡ is_in_time_range now.now args.now }
{
    is_in_form(clock(now, args), form(args))
}

fn is_in_form(now: Civil, form: &[CalendarArg]) -> bool
    ensures { result ≡ is_in_time_form now form.now }
{
    match form {
        [h] => shows_hour(now, below(24, h)),
        [h, k] => lies_between(now, hour(h), hour(k)),
        [h, m, k, n] => lies_between(now, minute(h, m), minute(k, n)),
        [h, m, s, k, n, t] => lies_between(now, second(h, m, s), second(k, n, t)),
        _ => false,
    }
}

fn shows_hour(now: Civil, hour: Option<i64>) -> bool
    ensures { result ≡ is_hour now hour }
{
    match hour {
        Some(hour) => hour == i64::from(now.hour),
        None => false,
    }
}

fn lies_between(now: Civil, from: Option<[i64; 3]>, to: Option<[i64; 3]>) -> bool
    ensures { result ≡ is_between now from to }
{
    match (from, to) {
        (Some(from), Some(to)) => lies_in_span(&from, &to, &time(now)),
        _ => false,
    }
}

fn time(now: Civil) -> [i64; 3]
    ensures { result ≡ time_of now }
{
    [
        i64::from(now.hour),
        i64::from(now.minute),
        i64::from(now.second),
    ]
}

fn hour(h: &CalendarArg) -> Option<[i64; 3]>
    ensures { result ≡ hour_at h.now }
{
    Some([below(24, h)?, 0, 0])
}

fn minute(h: &CalendarArg, m: &CalendarArg) -> Option<[i64; 3]>
    ensures { result ≡ minute_at h.now m.now }
{
    Some([below(24, h)?, below(60, m)?, 0])
}

fn second(h: &CalendarArg, m: &CalendarArg, s: &CalendarArg) -> Option<[i64; 3]>
    ensures { result ≡ second_at h.now m.now s.now }
{
    Some([below(24, h)?, below(60, m)?, below(60, s)?])
}

// The number of an argument, where it is from 0 up to and without a limit.
fn below(limit: i64, arg: &CalendarArg) -> Option<i64>
    ensures { result ≡ number_below limit arg.now }
{
    match arg {
        CalendarArg::Number(number) => within(limit, number.get()),
        _ => None,
    }
}

fn within(limit: i64, number: i64) -> Option<i64>
    ensures { result ≡ within_limit limit number }
{
    if number < 0 || number >= limit {
        None
    } else {
        Some(number)
    }
}
