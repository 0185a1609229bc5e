// Ranges of weekdays, dates and times.
use crate::clocks::moments_in;
use anyhow::{Context, Result, bail};
use case_rows::{Sample, samples};
use pac_calendar::{CalendarArg, Civil, Moments, date_range, time_range, weekday_range};
use std::alloc::Global;

// What a clock shows where a row says nothing else.
const SHOWN: Civil = Civil {
    year: 1995,
    month: 1,
    day: 1,
    weekday: 0,
    hour: 0,
    minute: 0,
    second: 0,
};

/// Clocks that all show the same.
fn same_clocks(shown: Civil) -> Moments {
    Moments {
        gmt: shown,
        local: shown,
    }
}

fn arguments(alloc: Global, fields: &[&str]) -> Result<Vec<CalendarArg>> {
    let mut all = Vec::new(alloc);
    for sample in samples(alloc, fields)? {
        all.push(match sample {
            Sample::Number(number) => CalendarArg::Number(number),
            Sample::Text(text) => CalendarArg::Text(text),
            _ => CalendarArg::Other,
        })?;
    }
    Ok(all)
}

/// The first field, and the arguments behind it.
fn shown_and_arguments<'a>(
    alloc: Global,
    fields: &[&'a str],
) -> Result<(&'a str, Vec<CalendarArg>)> {
    let (shown, args) = fields.split_first().context("what clocks show")?;
    Ok((*shown, arguments(alloc, args)?))
}

fn three_numbers(alloc: Global, field: &str) -> Result<(i32, u8, u8)> {
    let words: Vec<&str> = field.split(' ').collect(alloc)?;
    let [first, second, third] = words.as_slice() else {
        bail!("three numbers");
    };
    Ok((
        first.parse::<i32>()?,
        second.parse::<u8>()?,
        third.parse::<u8>()?,
    ))
}

fn told(alloc: Global, truth: bool) -> Result<String> {
    Ok(format!(in alloc; "{truth}")?)
}

pub(crate) fn weekdays(alloc: Global, fields: &[&str]) -> Result<String> {
    let (weekday, args) = shown_and_arguments(alloc, fields)?;
    let weekday = weekday.parse::<u8>()?;
    let now = same_clocks(Civil { weekday, ..SHOWN });
    told(alloc, weekday_range(&now, &args))
}

pub(crate) fn dates(alloc: Global, fields: &[&str]) -> Result<String> {
    let (date, args) = shown_and_arguments(alloc, fields)?;
    let (year, month, day) = three_numbers(alloc, date)?;
    let now = same_clocks(Civil {
        year,
        month,
        day,
        ..SHOWN
    });
    told(alloc, date_range(&now, &args))
}

pub(crate) fn times(alloc: Global, fields: &[&str]) -> Result<String> {
    let (time, args) = shown_and_arguments(alloc, fields)?;
    let (hour, minute, second) = three_numbers(alloc, time)?;
    let now = same_clocks(Civil {
        hour: u8::try_from(hour)?,
        minute,
        second,
        ..SHOWN
    });
    told(alloc, time_range(&now, &args))
}

/// A range at a moment in a zone.
pub(crate) fn at_moment(alloc: Global, fields: &[&str]) -> Result<String> {
    let [zone, seconds, range, args @ ..] = fields else {
        bail!("a zone, a moment, a range and its arguments");
    };
    let now = moments_in(alloc, zone, seconds)?;
    let args = arguments(alloc, args)?;
    match *range {
        "weekdayRange" => told(alloc, weekday_range(&now, &args)),
        "dateRange" => told(alloc, date_range(&now, &args)),
        "timeRange" => told(alloc, time_range(&now, &args)),
        _ => bail!("no range {range}"),
    }
}
