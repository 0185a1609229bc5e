// The functions on ranges of weekdays, dates and times.
ghost use Rattle.std.specs.Prelude.{◌≡◌, IfErr, IfOk, None, Some};
ghost use Rattle.pac_calendar.specs.Dates.{is_in_date_range};
ghost use Rattle.pac_calendar.specs.Times.{is_in_time_range};
ghost use Rattle.pac_calendar.specs.Weekdays.{is_in_weekday_range};
ghost use Rattle.pac_functions.specs.Call.{calendar_arg, calendar_args};

use crate::call::Stop;
use heap_values::Value;
use pac_calendar::{CalendarArg, Moments, date_range, time_range, weekday_range};
use std::alloc::Global;
use utf16_text::Memory;

/// What clocks show, where that is told.
pub fn shown(now: Option<Moments>) -> Result<Moments, Stop>
    ensures ok { IfOk result (λ moments. now ≡ Some moments) }
    ensures err { IfErr result (λ why. (why ≡ Stop.NoClock) × (now ≡ None)) }
{
    now.ok_or(Stop::NoClock)
}

pub fn is_weekday(alloc: Global, now: &Moments, args: &[Value]) -> Result<bool, Memory>
    ensures { IfOk result (λ truth. truth ≡ is_in_weekday_range now.now (calendar_args args.now)) }
{
    let args = calendar_args(alloc, args)?;
    Ok(weekday_range(now, &args))
}

pub fn is_date(alloc: Global, now: &Moments, args: &[Value]) -> Result<bool, Memory>
    ensures { IfOk result (λ truth. truth ≡ is_in_date_range now.now (calendar_args args.now)) }
{
    let args = calendar_args(alloc, args)?;
    Ok(date_range(now, &args))
}

pub fn is_time(alloc: Global, now: &Moments, args: &[Value]) -> Result<bool, Memory>
    ensures { IfOk result (λ truth. truth ≡ is_in_time_range now.now (calendar_args args.now)) }
{
    let args = calendar_args(alloc, args)?;
    Ok(time_range(now, &args))
}

/// The arguments of a range, each as it was handed over.
fn calendar_args(alloc: Global, args: &[Value]) -> Result<Vec<CalendarArg>, Memory>
    ensures { IfOk result (λ all. all.items ≡ calendar_args args.now) }
{
    let mut all = Vec::with_capacity(alloc, args.len())?;
    for value in args {
        all.push(calendar_arg(alloc, value)?)?;
    }
    Ok(all)
}

fn calendar_arg(alloc: Global, value: &Value) -> Result<CalendarArg, Memory>
    ensures { IfOk result (λ arg. arg ≡ calendar_arg value.now) }
{
    match value {
        Value::Number(number) => Ok(CalendarArg::Number(*number)),
        Value::Text(text) => Ok(CalendarArg::Text(text.copy(alloc)?)),
        _ => Ok(CalendarArg::Other),
    }
}
