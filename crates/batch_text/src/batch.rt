// Batches.
ghost use Rattle.std.specs.Prelude.{◌≡◌, ◌≤◌, IfOk, length};
ghost use Rattle.std.specs.Char.{is_ascii_digit};
ghost use Rattle.std.specs.List.{list_all};
ghost use Rattle.batch_text.specs.View.{view_of};
ghost use Rattle.batch_text.specs.Batch.{
  At,
  Get,
  ReadsBatch,
  batch_in,
  line_of,
  text_line,
  at_line,
  get_line,
  moment_of,
  is_number,
  goes_back,
  Fail,
  Good,
  fail_line,
  good_line,
  proxy_of,
};
ghost use Rattle.batch_text.specs.BatchEntering.{EntersBatch, is_begun, said};
ghost use Rattle.utf16_text.specs.declared.limits.TheConstants.{LONGEST_FILE};

use crate::lines::{rest, says_nothing, text_of, word};
use crate::seen::{View, ViewAnswer};
use crate::urls::view;
use bstr::ByteSlice;
use pac_calendar::LAST_MOMENT;
use proxy_list::{Proxy, parse_entry};
use std::alloc::Global;
use utf16_text::{List, Memory, Text};

/// The most URLs of a batch.
pub const MOST_URLS: usize = 256;

/// One line of a batch that asks or tells something at a moment, in seconds since 1970 in UTC.
#[derive(Drop)]
pub enum BatchLine {
    /// A URL is asked about.
    Get(i64, View),
    /// A proxy failed.
    Fail(i64, Proxy),
    /// A proxy worked.
    Good(i64, Proxy),
}

/// The lines of a batch that ask or tell something, in order.
pub type Batch = List<BatchLine>;

/// Why a line of a batch is refused.
#[derive(Clone, Copy, Debug, PartialEq, Eq)]
pub enum BatchKind {
    /// It is no UTF-8, or neither `at` with a moment, `get` with a URL, nor `fail` or `good` with a proxy.
    BadLine,
    /// Its URL has no view.
    BadUrl,
    /// Its moment is before that of an earlier line, or is the first one and stands behind a line that has a moment.
    BackwardTime,
    /// Its URL is the 257th.
    TooMany,
}

/// Why a batch is not read.
#[derive(Clone, Copy, Debug, PartialEq, Eq)]
pub enum BatchAnswer {
    /// The first line that is refused, by its number from 1.
    Refused(BatchKind, u32),
    Memory,
}

impl From<Memory> for BatchAnswer {
    ghost use Rattle.std.specs.Prelude.{◌≡◌};
    ghost use Rattle.batch_text.specs.declared.batch.BatchAnswer.TheVariants as answer;

    ghost from_gives = { λ _ e. e ≡ answer.Memory };

    fn from(_: Memory) -> BatchAnswer {
        BatchAnswer::Memory
    }
}

/// What a line says.
#[derive(Drop)]
enum Line<'a> {
    Nothing,
    At(i64),
    Get(&'a str),
    Fail(Proxy),
    Good(Proxy),
    Bad,
}

/// A batch up to some line.
#[derive(Drop)]
struct Reading {
    start: i64,
    /// The moment of the last line `at`.
    named: Option<i64>,
    /// How many URLs there are.
    gets: usize,
    batch: Batch,
}

/// What a batch asks and tells, each at its moment. A line is `at` and a moment from there on, `get` and a URL, or
/// `fail` or `good` and an entry of a proxy list other than `DIRECT`; one that is blank or begins with `#` says nothing.
/// Before the first line `at` the moment is `start`.
pub fn read_batch(alloc: Global, bytes: &[u8], start: i64) -> Result<Batch, BatchAnswer>
    requires { length bytes.now ≤ LONGEST_FILE }
    ensures { ReadsBatch result (batch_in start bytes.now) }
{
    let mut reading = Reading {
        start,
        named: None,
        gets: 0,
        batch: Batch::new(alloc),
    };
    let mut number = 0_u32;
    for line in bytes.lines() {
        number += 1;
        enter(alloc, &mut reading, line, number)?;
    }
    Ok(reading.batch)
}

/// Takes what a line says into the reading.
fn enter(alloc: Global, reading: &mut Reading, line: &[u8], number: u32) -> Result<(), BatchAnswer>
    ensures { EntersBatch reading.old (line_of line.now) number result reading.new }
{
    match line_of(alloc, line)? {
        Line::Nothing => Ok(()),
        Line::At(moment) => enter_moment(reading, moment, number),
        Line::Get(url) => enter_url(alloc, reading, url, number),
        Line::Fail(proxy) => enter_failure(alloc, reading, proxy, number),
        Line::Good(proxy) => enter_success(alloc, reading, proxy, number),
        Line::Bad => Err(BatchAnswer::Refused(BatchKind::BadLine, number)),
    }
}

fn enter_moment(reading: &mut Reading, moment: i64, number: u32) -> Result<(), BatchAnswer>
    ensures { EntersBatch reading.old (At moment) number result reading.new }
{
    if goes_back(reading, moment) {
        return Err(BatchAnswer::Refused(BatchKind::BackwardTime, number));
    }
    reading.named = Some(moment);
    Ok(())
}

fn goes_back(reading: &Reading, moment: i64) -> bool
    ensures { result ≡ goes_back reading.now.named (is_begun reading.now.batch) moment }
{
    match reading.named {
        Some(earlier) => moment < earlier,
        None => !reading.batch.is_empty(),
    }
}

fn enter_url(
    alloc: Global,
    reading: &mut Reading,
    url: &str,
    number: u32,
) -> Result<(), BatchAnswer>
    ensures { EntersBatch reading.old (Get (view_of url.now)) number result reading.new }
{
    if reading.gets >= MOST_URLS {
        return Err(BatchAnswer::Refused(BatchKind::TooMany, number));
    }
    match view(alloc, url) {
        Ok(view) => {
            let moment = reading.named.unwrap_or(reading.start);
            reading.batch.push(alloc, BatchLine::Get(moment, view))?;
            reading.gets += 1;
            Ok(())
        }
        Err(ViewAnswer::BadUrl) => Err(BatchAnswer::Refused(BatchKind::BadUrl, number)),
        Err(ViewAnswer::Memory) => Err(BatchAnswer::Memory),
    }
}

fn enter_failure(
    alloc: Global,
    reading: &mut Reading,
    proxy: Proxy,
    number: u32,
) -> Result<(), BatchAnswer>
    ensures { EntersBatch reading.old (Fail proxy) number result reading.new }
{
    let moment = reading.named.unwrap_or(reading.start);
    reading.batch.push(alloc, BatchLine::Fail(moment, proxy))?;
    Ok(())
}

fn enter_success(
    alloc: Global,
    reading: &mut Reading,
    proxy: Proxy,
    number: u32,
) -> Result<(), BatchAnswer>
    ensures { EntersBatch reading.old (Good proxy) number result reading.new }
{
    let moment = reading.named.unwrap_or(reading.start);
    reading.batch.push(alloc, BatchLine::Good(moment, proxy))?;
    Ok(())
}

fn line_of(alloc: Global, line: &[u8]) -> Result<Line<'_>, Memory>
    ensures { IfOk result (λ l. said l ≡ line_of line.now) }
{
    match text_of(line) {
        Some(text) => text_line(alloc, text),
        None => Ok(Line::Bad),
    }
}

fn text_line(alloc: Global, line: &str) -> Result<Line<'_>, Memory>
    ensures { IfOk result (λ l. said l ≡ text_line line.now) }
{
    if says_nothing(line) {
        return Ok(Line::Nothing);
    }
    match word(line) {
        "at" => Ok(at_line(rest(line))),
        "get" => Ok(get_line(rest(line))),
        "fail" => fail_line(alloc, rest(line)),
        "good" => good_line(alloc, rest(line)),
        _ => Ok(Line::Bad),
    }
}

fn fail_line<'a>(alloc: Global, entry: &str) -> Result<Line<'a>, Memory>
    ensures { IfOk result (λ l. said l ≡ fail_line (proxy_of entry.now)) }
{
    match proxy_of(alloc, entry)? {
        Some(proxy) => Ok(Line::Fail(proxy)),
        None => Ok(Line::Bad),
    }
}

fn good_line<'a>(alloc: Global, entry: &str) -> Result<Line<'a>, Memory>
    ensures { IfOk result (λ l. said l ≡ good_line (proxy_of entry.now)) }
{
    match proxy_of(alloc, entry)? {
        Some(proxy) => Ok(Line::Good(proxy)),
        None => Ok(Line::Bad),
    }
}

/// The proxy that a text names.
fn proxy_of(alloc: Global, entry: &str) -> Result<Option<Proxy>, Memory>
    ensures { IfOk result (λ proxy. proxy ≡ proxy_of entry.now) }
{
    match parse_entry(alloc, &Text::from_str(alloc, entry)?)? {
        Some(proxy) if !proxy.kind.is_direct() => Ok(Some(proxy)),
        _ => Ok(None),
    }
}

fn at_line(digits: &str) -> Line<'_>
    ensures { said result ≡ at_line (moment_of digits.now) }
{
    match moment_of(digits) {
        Some(moment) => Line::At(moment),
        None => Line::Bad,
    }
}

fn get_line(url: &str) -> Line<'_>
    ensures { said result ≡ get_line url.now }
{
    if url.is_empty() {
        Line::Bad
    } else {
        Line::Get(url)
    }
}

/// The moment that 1 to 20 digits write.
fn moment_of(digits: &str) -> Option<i64>
    ensures { result ≡ moment_of digits.now }
{
    if !is_number(digits) {
        return None;
    }
    match digits.parse::<i64>() {
        Ok(moment) if moment <= LAST_MOMENT as i64 => Some(moment),
        _ => None,
    }
}

fn is_number(text: &str) -> bool
    ensures { result ≡ is_number text.now }
{
    1 <= text.len() && text.len() <= 20 && are_digits(text.as_bytes())
}

fn are_digits(bytes: &[u8]) -> bool
    ensures { result ≡ list_all is_ascii_digit bytes.now }
{
    bytes.iter().all(|byte| byte.is_ascii_digit())
}
