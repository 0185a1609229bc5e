// Ranges of dates.
ghost use Rattle.std.specs.Prelude.{◌≡◌};
ghost use Rattle.pac_calendar.specs.Dates.{
  date_at,
  date_of,
  is_between,
  is_in_date_form,
  is_in_date_range,
  is_in_four,
  is_in_one,
  is_in_two,
  month_and_day_of,
  month_of,
  part_of,
  part_of_number,
  year_and_month_of,
};

use crate::argument::{CalendarArg, clock, form, place};
use crate::moment::{Civil, Moments};
use crate::order::{lies_within, lies_within_round};

const MONTHS: [[u8; 3]; 12] = [
    *b"JAN", *b"FEB", *b"MAR", *b"APR", *b"MAY", *b"JUN", *b"JUL", *b"AUG", *b"SEP", *b"OCT",
    *b"NOV", *b"DEC",
];

/// What an argument names in a date.
#[derive(Clone, Copy)]
enum DatePart {
    Day(i64),
    Month(i64),
    Year(i64),
    Nothing,
}

/// Whether the moment lies in a range of dates (`dateRange`). A number from 1 to 31 is a day, one from 1000 a year, and
/// one of `JAN FEB MAR APR MAY JUN JUL AUG SEP OCT NOV DEC` a month. One day, month or year, or a day and a month, with
/// a year or without, is itself; two of a kind, the same for both, are the ends of a range, both inclusive. Without a
/// year a range goes past its end where the first end comes later; with a year it is empty then. A last `GMT` chooses
/// the clock. Any other list of arguments is no range, and the answer is false.
pub fn date_range(now: &Moments, args: &[CalendarArg]) -> bool
    ensures { result ≡ is_in_date_range now.now args.now }
{
    is_in_form(clock(now, args), form(args))
}

fn is_in_form(now: Civil, form: &[CalendarArg]) -> bool
    ensures { result ≡ is_in_date_form now form.now }
{
    match form {
        [a] => is_in_one(now, part(a)),
        [a, b] => is_in_two(now, part(a), part(b)),
        [a, b, c] => lies_on(now, date(part(a), part(b), part(c))),
        [a, b, c, d] => is_in_four(now, part(a), part(b), part(c), part(d)),
        [a, b, c, d, e, f] => lies_between(
            now,
            date(part(a), part(b), part(c)),
            date(part(d), part(e), part(f)),
        ),
        _ => false,
    }
}

fn is_in_one(now: Civil, part: DatePart) -> bool
    ensures { result ≡ is_in_one now part }
{
    match part {
        DatePart::Day(day) => day == i64::from(now.day),
        DatePart::Month(month) => month == i64::from(now.month),
        DatePart::Year(year) => year == i64::from(now.year),
        DatePart::Nothing => false,
    }
}

fn is_in_two(now: Civil, a: DatePart, b: DatePart) -> bool
    ensures { result ≡ is_in_two now a b }
{
    match (a, b) {
        (DatePart::Day(day), DatePart::Month(month)) => {
            day == i64::from(now.day) && month == i64::from(now.month)
        }
        (DatePart::Day(from), DatePart::Day(to)) => {
            lies_within_round(&[from], &[to], &[i64::from(now.day)])
        }
        (DatePart::Month(from), DatePart::Month(to)) => {
            lies_within_round(&[from], &[to], &[i64::from(now.month)])
        }
        (DatePart::Year(from), DatePart::Year(to)) => {
            lies_within(&[from], &[to], &[i64::from(now.year)])
        }
        _ => false,
    }
}

fn is_in_four(now: Civil, a: DatePart, b: DatePart, c: DatePart, d: DatePart) -> bool
    ensures { result ≡ is_in_four now a b c d }
{
    match (a, b, c, d) {
        (DatePart::Day(day), DatePart::Month(month), DatePart::Day(last), DatePart::Month(until)) =>
            { lies_within_round(&[month, day], &[until, last], &month_and_day(now)) }
        (
            DatePart::Month(month),
            DatePart::Year(year),
            DatePart::Month(last),
            DatePart::Year(until),
        ) => { lies_within(&[year, month], &[until, last], &year_and_month(now)) }
        _ => false,
    }
}

fn month_and_day(now: Civil) -> [i64; 2]
    ensures { result ≡ month_and_day_of now }
{
    [i64::from(now.month), i64::from(now.day)]
}

fn year_and_month(now: Civil) -> [i64; 2]
    ensures { result ≡ year_and_month_of now }
{
    [i64::from(now.year), i64::from(now.month)]
}

fn lies_on(now: Civil, date: Option<[i64; 3]>) -> bool
    ensures { result ≡ is_between now date date }
{
    lies_between(now, date, date)
}

fn lies_between(now: Civil, from: Option<[i64; 3]>, to: Option<[i64; 3]>) -> bool
    ensures { result ≡ is_between now from to }
{
    match (from, to) {
        (Some(from), Some(to)) => lies_within(&from, &to, &today(now)),
        _ => false,
    }
}

fn today(now: Civil) -> [i64; 3]
    ensures { result ≡ date_of now }
{
    [
        i64::from(now.year),
        i64::from(now.month),
        i64::from(now.day),
    ]
}

fn date(a: DatePart, b: DatePart, c: DatePart) -> Option<[i64; 3]>
    ensures { result ≡ date_at a b c }
{
    match (a, b, c) {
        (DatePart::Day(day), DatePart::Month(month), DatePart::Year(year)) => Some([
            year, month, day,
        ]),
        _ => None,
    }
}

fn part(arg: &CalendarArg) -> DatePart
    ensures { result ≡ part_of arg.now }
{
    match arg {
        CalendarArg::Number(number) => part_of_number(number.get()),
        CalendarArg::Text(_) => month(arg),
        CalendarArg::Other => DatePart::Nothing,
    }
}

fn part_of_number(number: i64) -> DatePart
    ensures { result ≡ part_of_number number }
{
    match number {
        1..=31 => DatePart::Day(number),
        1000.. => DatePart::Year(number),
        _ => DatePart::Nothing,
    }
}

fn month(arg: &CalendarArg) -> DatePart
    ensures { result ≡ month_of arg.now }
{
    match place(arg, &MONTHS) {
        Some(place) => DatePart::Month(place as i64 + 1),
        None => DatePart::Nothing,
    }
}
