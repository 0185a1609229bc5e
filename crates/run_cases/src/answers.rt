// Answers of runs as rows write them.
use anyhow::{Result, bail};
use case_rows::written_text;
use js_interp::{Ending, Fault, Outcome, RunAnswer};
use pac_names::{LookupName, NameKind};
use std::alloc::Global;
use utf16_text::Text;

/// How a run ended, the names that it asked, and its alerts; or the name that was missing. The alerts of a run that
/// stops at a name are none of its answer.
pub(crate) fn written(alloc: Global, answer: &RunAnswer, asked: &[LookupName]) -> Result<String> {
    match answer {
        RunAnswer::Done(outcome) => written_outcome(alloc, &outcome.copy(alloc)?, asked),
        _ => {
            let mut told = written_end(alloc, answer)?;
            tell_names(asked, &mut told)?;
            Ok(told)
        }
    }
}

/// How a run ended, or the name that was missing.
pub(crate) fn written_end(alloc: Global, answer: &RunAnswer) -> Result<String> {
    match answer {
        RunAnswer::Done(outcome) => written_ending(alloc, &outcome.ending),
        RunAnswer::Missing(name) => {
            let mut told = format!(in alloc; "missing ")?;
            tell_name(name, &mut told)?;
            Ok(told)
        }
        RunAnswer::Memory => bail!("memory"),
    }
}

/// An answer in numbers: how a run ended, how many names it asked, and how many alerts it has.
pub(crate) fn written_in_numbers(
    alloc: Global,
    answer: &RunAnswer,
    asked: &[LookupName],
) -> Result<String> {
    let RunAnswer::Done(outcome) = answer else {
        bail!("no run that ended");
    };
    let ending = written_ending(alloc, &outcome.ending)?;
    let names = asked.len();
    let alerts = outcome.alerts.as_slice();
    let count = alerts.len();
    let units = units_of(alerts);
    Ok(format!(in alloc; "{ending}, {names} names, {count} alerts of {units} units")?)
}

fn written_outcome(alloc: Global, outcome: &Outcome, asked: &[LookupName]) -> Result<String> {
    let mut told = written_ending(alloc, &outcome.ending)?;
    tell_names(asked, &mut told)?;
    tell_alerts(alloc, outcome.alerts.as_slice(), &mut told)?;
    Ok(told)
}

fn written_ending(alloc: Global, ending: &Ending) -> Result<String> {
    match ending {
        Ending::Result(text) => {
            let text = written_text(alloc, text)?;
            Ok(format!(in alloc; "result {text}")?)
        }
        Ending::Fault(fault) => fault_line(alloc, fault),
    }
}

fn fault_line(alloc: Global, fault: &Fault) -> Result<String> {
    let code = fault.code;
    let place = fault.place;
    let detail = written_text(alloc, &fault.detail)?;
    if detail.is_empty() {
        return Ok(format!(in alloc; "{code:?} at {place}")?);
    }
    Ok(format!(in alloc; "{code:?} at {place} {detail}")?)
}

/// A name, with its type where it asks for IPv6 addresses.
pub(crate) fn tell_name(name: &LookupName, told: &mut String) -> Result<()> {
    told.push_str(std::str::from_utf8(name.bytes())?)?;
    if name.kind() == NameKind::V6 {
        told.push_str(" AAAA")?;
    }
    Ok(())
}

fn tell_names(asked: &[LookupName], told: &mut String) -> Result<()> {
    for name in asked {
        told.push_str(", asked ")?;
        tell_name(name, told)?;
    }
    Ok(())
}

fn tell_alerts(alloc: Global, alerts: &[Text], told: &mut String) -> Result<()> {
    for alert in alerts {
        told.push_str(", alert ")?;
        told.push_str(written_text(alloc, alert)?.as_str())?;
    }
    Ok(())
}

fn units_of(alerts: &[Text]) -> usize {
    let mut units: usize = 0;
    for alert in alerts {
        units = units.saturating_add(alert.len());
    }
    units
}
