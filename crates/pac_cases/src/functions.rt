// Calls of the functions that scripts are handed.
use crate::clocks::moments_in;
use crate::names::name_in;
use answer_table::AnswerTable;
use anyhow::{Context, Result, bail, ensure};
use case_rows::{Sample, samples, written_text};
use heap_values::{ObjectId, Value};
use js_convert::to_text;
use pac_calendar::Moments;
use pac_functions::{PacAnswer, PacFunction, PacSettings, call_pac};
use pac_names::{Answer, LookupName, NameKind};
use std::alloc::Global;
use tracing_host::TracingHost;
use utf16_text::Text;

/// 192.168.1.10, the machine's own address in these rows.
const SETTINGS: PacSettings = PacSettings { my_ip: 0xC0A8_010A };

/// Sunday, 2 January 2000, at noon in GMT.
const NOON: &str = "946814400";

/// What a call gives, what it asked and what it told, over a host that knows some names, and on a Sunday at noon in GMT.
pub(crate) fn called(alloc: Global, fields: &[&str]) -> Result<String> {
    let now = moments_in(alloc, "UTC", NOON)?;
    told_after(alloc, 0, Some(now), fields)
}

/// The same where the call isn't told what clocks show.
pub(crate) fn called_untold(alloc: Global, fields: &[&str]) -> Result<String> {
    told_after(alloc, 0, None, fields)
}

/// The same where so many other names were asked before.
pub(crate) fn called_late(alloc: Global, fields: &[&str]) -> Result<String> {
    let (asked, call) = fields.split_first().context("how many names")?;
    let now = moments_in(alloc, "UTC", NOON)?;
    told_after(alloc, asked.parse::<u32>()?, Some(now), call)
}

fn told_after(alloc: Global, asked: u32, now: Option<Moments>, call: &[&str]) -> Result<String> {
    let (name, args) = call.split_first().context("a function")?;
    let function = function_named(name)?;
    let args = values(alloc, args)?;
    let table = known(alloc)?;
    let mut host = TracingHost::new(alloc, &table);
    ask_names(alloc, asked, now, &mut host)?;
    let answer = call_pac(alloc, function, &args, now, &SETTINGS, &mut host);
    let mut told = written(alloc, &answer)?;
    for name in host.asked().as_slice().iter().skip(asked as usize) {
        told.push_str(", asked ")?;
        push_name(alloc, &mut told, name)?;
    }
    tell_alerts(alloc, host.alerts().as_slice(), &mut told)?;
    Ok(told)
}

/// Asks for so many names.
fn ask_names(
    alloc: Global,
    count: u32,
    now: Option<Moments>,
    host: &mut TracingHost<'_>,
) -> Result<()> {
    for number in 0..count {
        let name = Text::from_str(alloc, &format!(in alloc; "n{number}.example")?)?;
        let args = [Value::Text(name)];
        call_pac(
            alloc,
            PacFunction::IsResolvable,
            &args,
            now,
            &SETTINGS,
            host,
        );
    }
    Ok(())
}

fn tell_alerts(alloc: Global, alerts: &[Text], told: &mut String) -> Result<()> {
    for alert in alerts {
        told.push_str(", alert ")?;
        told.push_str(written_text(alloc, alert)?.as_str())?;
    }
    Ok(())
}

/// 2001:db8::, of the prefix for documentation (RFC 3849).
const EXAMPLE6: u128 = 0x2001_0db8_0000_0000_0000_0000_0000_0000;

/// The answers that the host knows.
fn known(alloc: Global) -> Result<AnswerTable> {
    let mut table = AnswerTable::new(alloc);
    let home = Answer::Address(0xC65F_F94F);
    learn(alloc, &mut table, "home.netscape.com", home)?;
    learn(
        alloc,
        &mut table,
        "home.netscape.com AAAA",
        Answer::NoAddress,
    )?;
    learn(alloc, &mut table, "www.netscape.com", Answer::NoAddress)?;
    learn(
        alloc,
        &mut table,
        "www.netscape.com AAAA",
        Answer::NoAddress,
    )?;
    learn_families(alloc, &mut table)?;
    Ok(table)
}

/// Both addresses of one name, the IPv6 address of two, of which one has no other, and of one the answers in each
/// other's place.
fn learn_families(alloc: Global, table: &mut AnswerTable) -> Result<()> {
    let four = Answer::Address(0x0A00_0001);
    learn(alloc, table, "both.example", four)?;
    learn(
        alloc,
        table,
        "both.example AAAA",
        Answer::Address6(EXAMPLE6 + 1),
    )?;
    learn(alloc, table, "six.example", Answer::NoAddress)?;
    learn(
        alloc,
        table,
        "six.example AAAA",
        Answer::Address6(EXAMPLE6 + 2),
    )?;
    learn(
        alloc,
        table,
        "half.example AAAA",
        Answer::Address6(EXAMPLE6 + 3),
    )?;
    learn(
        alloc,
        table,
        "crossed.example",
        Answer::Address6(EXAMPLE6 + 4),
    )?;
    learn(alloc, table, "crossed.example AAAA", four)
}

fn learn(alloc: Global, table: &mut AnswerTable, name: &str, answer: Answer) -> Result<()> {
    let name = name_in(name)?;
    ensure!(table.get(&name).is_none(), "each name once");
    table.insert(alloc, name, answer)?;
    Ok(())
}

fn function_named(name: &str) -> Result<PacFunction> {
    Ok(match name {
        "isPlainHostName" => PacFunction::IsPlainHostName,
        "dnsDomainIs" => PacFunction::DnsDomainIs,
        "localHostOrDomainIs" => PacFunction::LocalHostOrDomainIs,
        "dnsDomainLevels" => PacFunction::DnsDomainLevels,
        "dnsResolve" => PacFunction::DnsResolve,
        "isResolvable" => PacFunction::IsResolvable,
        "isInNet" => PacFunction::IsInNet,
        "myIpAddress" => PacFunction::MyIpAddress,
        "shExpMatch" => PacFunction::ShExpMatch,
        "alert" => PacFunction::Alert,
        "weekdayRange" => PacFunction::WeekdayRange,
        "dateRange" => PacFunction::DateRange,
        "timeRange" => PacFunction::TimeRange,
        "dnsResolveEx" => PacFunction::DnsResolveEx,
        "isResolvableEx" => PacFunction::IsResolvableEx,
        "isInNetEx" => PacFunction::IsInNetEx,
        _ => bail!("no function {name}"),
    })
}

fn values(alloc: Global, fields: &[&str]) -> Result<Vec<Value>> {
    let mut all = Vec::new(alloc);
    for sample in samples(alloc, fields)? {
        all.push(match sample {
            Sample::Undefined => Value::Undefined,
            Sample::Null => Value::Null,
            Sample::Truth(truth) => Value::Bool(truth),
            Sample::Number(number) => Value::Number(number),
            Sample::Text(text) => Value::Text(text),
            Sample::Object(number) => Value::Object(ObjectId(number)),
        })?;
    }
    Ok(all)
}

fn written(alloc: Global, answer: &PacAnswer) -> Result<String> {
    match answer {
        PacAnswer::Value(Value::Text(text)) => {
            let text = written_text(alloc, text)?;
            Ok(format!(in alloc; "'{}'", text.as_str())?)
        }
        PacAnswer::Value(value) => written_text(alloc, &to_text(alloc, value)?),
        PacAnswer::Missing(name) => {
            let mut told = String::from_str(alloc, "missing ")?;
            push_name(alloc, &mut told, name)?;
            Ok(told)
        }
        PacAnswer::TooMany => Ok(String::from_str(alloc, "too many")?),
        PacAnswer::NoClock => Ok(String::from_str(alloc, "no clock")?),
        PacAnswer::Memory => bail!("want of memory"),
    }
}

/// Writes a name, and the type AAAA behind it where its IPv6 address is asked.
fn push_name(_alloc: Global, told: &mut String, name: &LookupName) -> Result<()> {
    told.push_str(std::str::from_utf8(name.bytes())?)?;
    if name.kind() == NameKind::V6 {
        told.push_str(" AAAA")?;
    }
    Ok(())
}
