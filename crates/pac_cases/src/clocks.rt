// Zones, and what their clocks show.
use anyhow::{Context, Result, bail, ensure};
use pac_calendar::{Civil, Moments, moments, read_zone};
use std::alloc::Global;

pub(crate) fn moments_in(alloc: Global, zone: &str, seconds: &str) -> Result<Moments> {
    let zone = read_zone(zone).context("a zone")?;
    let seconds = seconds.parse::<i64>()?;
    ensure!(
        seconds >= 0 && seconds <= 253_370_764_799,
        "a moment from 1970 to 9999"
    );
    Ok(moments(alloc, seconds, &zone)?)
}

/// What the clocks of GMT and of a zone show at a moment.
pub(crate) fn shown(alloc: Global, fields: &[&str]) -> Result<String> {
    let [zone, seconds] = fields else {
        bail!("a zone and a moment");
    };
    let now = moments_in(alloc, zone, seconds)?;
    let gmt = written(alloc, now.gmt)?;
    let local = written(alloc, now.local)?;
    Ok(format!(in alloc; "{}, {}", gmt.as_str(), local.as_str())?)
}

fn written(alloc: Global, shown: Civil) -> Result<String> {
    let Civil {
        year,
        month,
        day,
        weekday,
        hour,
        minute,
        second,
    } = shown;
    Ok(format!(in alloc; "{year}-{month}-{day} {weekday} {hour}:{minute}:{second}")?)
}

/// The seconds that the clock of a zone is ahead.
pub(crate) fn seconds(alloc: Global, fields: &[&str]) -> Result<String> {
    let [zone] = fields else {
        bail!("a zone");
    };
    match read_zone(zone) {
        Some(zone) => Ok(format!(in alloc; "{}", zone.seconds())?),
        None => Ok(String::from_str(alloc, "none")?),
    }
}
