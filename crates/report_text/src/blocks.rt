// The report of a batch.
ghost use Rattle.std.specs.Prelude.{◌≡◌, ◌++◌, List, IfOk, OnOk, false, flat_map, map, option_map};
ghost use Rattle.bad_proxy_table.specs.Retry.{Report, StandsFor};
ghost use Rattle.batch_text.specs.Batch.{entry_seen};
ghost use Rattle.utf16_text.specs.Escape.{escaped};
ghost use Rattle.js_evaluation.specs.Evaluation.{Fails};
ghost use Rattle.js_interp.specs.Answers.{seen_outcome};
ghost use Rattle.report_text.specs.Report as spec;
ghost use Rattle.report_text.specs.Report.{done, seen, seen_end};

use crate::draft::Draft;
use crate::fault::{fault_name, has_detail};
use bad_proxy_table::BadTable;
use batch_text::{Batch, BatchLine};
use js_interp::{Ending, Fault, Outcome};
use pac_names::{LookupName, NameKind};
use proxy_list::{Proxy, ProxyList, parse_list, write_entry};
use std::alloc::Global;
use utf16_text::{Memory, Text};

/// How it ended with one URL.
#[derive(Drop)]
pub enum End {
    /// Its run came to an end.
    Done(Outcome),
    /// This name stayed unanswered, of which the addresses of one family are asked.
    Unanswered(LookupName),
}

impl End {
    ghost use Rattle.report_text.specs.Report.{result_of, seen};

    /// The result, where there is one.
    pub fn result(&self) -> Option<&Text>
        ensures { option_map (λ text. text.now) result ≡ result_of (seen self.now) }
    {
        match self {
            End::Done(outcome) => match &outcome.ending {
                Ending::Result(text) => Some(text),
                Ending::Fault(_) => None,
            },
            End::Unanswered(_) => None,
        }
    }
}

/// How it ended with one URL, and how many runs it took.
#[derive(Drop)]
pub struct UrlEnd {
    pub end: End,
    pub runs: u64,
}

/// The report of a batch, whose URLs end so, in their order: lines of bytes. Behind a result stand its proxies in the
/// order in which to try them, by what the lines before the URL's tell of proxies. Its length is counted first, and its
/// bytes are taken at once.
pub fn report(alloc: Global, batch: &Batch, ends: &[UrlEnd]) -> Result<Vec<u8>, Memory>
    ensures { IfOk result (λ bytes. bytes.items ≡ spec.report_of (map entry_seen batch.now) (map seen_end ends.now)) }
{
    drafted(alloc, batch, ends)?.written(alloc)
}

/// The report in pieces.
fn drafted<'a>(alloc: Global, batch: &'a Batch, ends: &'a [UrlEnd]) -> Result<Draft<'a>, Memory>
    ensures { IfOk result (λ draft. draft ≡ spec.report_of (map entry_seen batch.now) (map seen_end ends.now)) }
{
    let mut out = Draft::new(alloc);
    let mut proxies = BadTable::new(alloc);
    let mut left = ends;
    let mut number = 1u64;
    for line in batch.as_slice() {
        match line {
            BatchLine::Fail(moment, proxy) => proxies.failed(alloc, proxy, *moment)?,
            BatchLine::Good(moment, proxy) => proxies.worked(alloc, proxy, *moment)?,
            BatchLine::Get(moment, view) => {
                let [end, rest @ ..] = left else {
                    return Ok(out);
                };
                write_tried(alloc, &mut out, number, &view.url, *moment, end, &proxies)?;
                left = rest;
                number += 1;
            }
        }
    }
    Ok(out)
}

/// The lines of one URL at a moment.
fn write_tried<'a>(
    alloc: Global,
    out: &mut Draft<'a>,
    number: u64,
    url: &'a Text,
    moment: i64,
    end: &'a UrlEnd,
    proxies: &BadTable,
) -> Result<(), Memory>
    ensures { OnOk result ((reports : List Report) → StandsFor proxies.now reports
        → out.new ≡ out.old ++ spec.block number url.now (seen_end end.now) (spec.tries_of reports moment (seen end.now.end))) }
{
    let tries = tries_of(alloc, proxies, moment, &end.end)?;
    write_block(alloc, out, number, url, end, tries.as_slice())
}

/// The proxies of a result, in the order in which to try them.
fn tries_of(alloc: Global, proxies: &BadTable, moment: i64, end: &End) -> Result<ProxyList, Memory>
    ensures { IfOk result (λ tries. (reports : List Report) → StandsFor proxies.now reports → tries ≡ spec.tries_of reports moment (seen end.now)) }
{
    match end.result() {
        Some(text) => proxies.order(alloc, &parse_list(alloc, text)?, moment),
        None => Ok(ProxyList::new(alloc)),
    }
}

/// The lines of one URL with these proxies to try.
fn write_block<'a>(
    alloc: Global,
    out: &mut Draft<'a>,
    number: u64,
    url: &'a Text,
    end: &'a UrlEnd,
    tries: &[Proxy],
) -> Result<(), Memory>
    ensures { OnOk result (out.new ≡ out.old ++ spec.block number url.now (seen_end end.now) tries.now) }
{
    write_url(alloc, out, number, url)?;
    write_end(alloc, out, &end.end)?;
    out.made(try_lines(alloc, tries)?)?;
    write_runs(alloc, out, end.runs)
}

/// The lines of proxies to try.
fn try_lines(alloc: Global, tries: &[Proxy]) -> Result<Vec<u8>, Memory>
    ensures { IfOk result (λ lines. lines.items ≡ flat_map spec.try_line tries.now) }
{
    let mut lines = Vec::new(alloc);
    for proxy in tries {
        write_try(alloc, &mut lines, proxy)?;
    }
    Ok(lines)
}

fn write_try(alloc: Global, lines: &mut Vec<u8>, proxy: &Proxy) -> Result<(), Memory>
    ensures { OnOk result (lines.new.items ≡ lines.old.items ++ spec.try_line proxy.now) }
{
    lines.extend_from_slice(b"try ")?;
    write_entry(alloc, proxy, lines)?;
    lines.push(b'\n')?;
    Ok(())
}

fn write_url<'a>(
    alloc: Global,
    out: &mut Draft<'a>,
    number: u64,
    url: &'a Text,
) -> Result<(), Memory>
    ensures { OnOk result (out.new ≡ out.old ++ spec.url_line number url.now) }
{
    out.made(format!(in alloc; "url {number} ")?.into_bytes())?;
    write_text(out, b"", url)
}

fn write_end<'a>(alloc: Global, out: &mut Draft<'a>, end: &'a End) -> Result<(), Memory>
    ensures { OnOk result (out.new ≡ out.old ++ spec.end_lines (seen end.now)) }
{
    match end {
        End::Done(outcome) => write_outcome(alloc, out, outcome),
        End::Unanswered(name) => {
            write_line(out, b"unanswered ", name.bytes(), type_text(name.kind()))
        }
    }
}

fn write_runs(alloc: Global, out: &mut Draft<'_>, runs: u64) -> Result<(), Memory>
    ensures { OnOk result (out.new ≡ out.old ++ spec.runs_line runs) }
{
    out.made(format!(in alloc; "runs {runs}\n")?.into_bytes())
}

fn write_outcome<'a>(alloc: Global, out: &mut Draft<'a>, outcome: &'a Outcome) -> Result<(), Memory>
    ensures { OnOk result (out.new ≡ out.old ++ spec.end_lines (done (seen_outcome outcome.now))) }
{
    write_alerts(out, outcome.alerts.as_slice())?;
    match &outcome.ending {
        Ending::Result(text) => write_text(out, b"result ", text),
        Ending::Fault(fault) => write_fault(alloc, out, fault),
    }
}

fn write_alerts<'a>(out: &mut Draft<'a>, alerts: &'a [Text]) -> Result<(), Memory>
    ensures { OnOk result (out.new ≡ out.old ++ flat_map spec.alert_line alerts.now) }
{
    for alert in alerts {
        write_text(out, b"alert ", alert)?;
    }
    Ok(())
}

/// A line of a word and more bytes, and what stands behind them.
fn write_line<'a>(
    out: &mut Draft<'a>,
    word: &'a [u8],
    bytes: &'a [u8],
    behind: &'a [u8],
) -> Result<(), Memory>
    ensures { OnOk result (out.new ≡ out.old ++ spec.line (word.now ++ bytes.now ++ behind.now)) }
{
    out.bytes(word)?;
    out.bytes(bytes)?;
    out.bytes(behind)?;
    out.bytes(b"\n")
}

/// The type of the addresses that a name asks for (RFC 3596, section 2.1). Of IPv4 nothing is said.
fn type_text(kind: NameKind) -> &'static [u8]
    ensures { result.now ≡ spec.type_text kind }
{
    match kind {
        NameKind::V4 => b"",
        NameKind::V6 => b" AAAA",
    }
}

/// A line of a word and a text.
fn write_text<'a>(out: &mut Draft<'a>, word: &'a [u8], text: &'a Text) -> Result<(), Memory>
    ensures { OnOk result (out.new ≡ out.old ++ spec.line (word.now ++ escaped false text.now)) }
{
    out.bytes(word)?;
    out.escaped(text)?;
    out.bytes(b"\n")
}

fn write_fault<'a>(alloc: Global, out: &mut Draft<'a>, fault: &'a Fault) -> Result<(), Memory>
    ensures { OnOk result (out.new ≡ out.old ++ spec.ending_line (Fails fault.now)) }
{
    let name = fault_name(fault.code);
    let place = fault.place;
    out.made(format!(in alloc; "fault {name} at {place}")?.into_bytes())?;
    if has_detail(fault.code) {
        out.bytes(b" ")?;
        out.escaped(&fault.detail)?;
    }
    out.bytes(b"\n")
}
