// Scripts that are run.
ghost use Rattle.std.specs.Prelude.{◌≡◌, ◌<◌};

use crate::answers::{written, written_in_numbers};
use crate::noting_host::{NotingHost, known_without_address};
use crate::surroundings::{NOW, SETTINGS, known_names};
use anyhow::{Context, Result, bail, ensure};
use case_rows::text;
use js_host::Host;
use js_interp::{Entry, RunAnswer, run};
use js_parser::read_script;
use js_scope::{Program, resolve};
use js_tree::ReadAnswer;
use std::alloc::Global;
use std::marker::Brand;
use std::sync::ledger::{Blank, Ledger};
use step_counter::Steps;
use tracing_host::{MapHost, TracingHost};

/// What a script comes to over a host to which a name that it doesn't know has no address.
pub(crate) fn outcome(alloc: Global, source: &str, fuel: u64) -> Result<String> {
    told_twice(alloc, source, fuel, over_map)
}

/// The same with the names and alerts in numbers.
pub(crate) fn counted(alloc: Global, source: &str, fuel: u64) -> Result<String> {
    told_twice(alloc, source, fuel, counted_over_map)
}

/// What it comes to over a host at which it stops where it asks a name that the host doesn't know.
pub(crate) fn outcome_of_known(alloc: Global, source: &str, fuel: u64) -> Result<String> {
    told_twice(alloc, source, fuel, over_table)
}

/// The calls that it makes of a host that knows these names, to none of which there is an address.
pub(crate) fn calls_of_host(alloc: Global, source: &str, known: &str, fuel: u64) -> Result<String> {
    told_twice(alloc, source, fuel, |alloc, program, entry| {
        calls_over_table(alloc, program, entry, known)
    })
}

/// A script as it is read.
pub(crate) enum Reading {
    Program(Program),
    /// How it is refused.
    Refused(String),
}

pub(crate) fn reading_of(alloc: Global, source: &str) -> Result<Reading> {
    let source = text(alloc, source)?;
    ensure!(
        source.len() <= 1_048_576,
        "a script of at most 1,048,576 units"
    );
    match read_script(alloc, &source) {
        Ok(script) => {
            let program = resolve(alloc, script).context("memory")?;
            Ok(Reading::Program(program))
        }
        Err(ReadAnswer::Refused(kind, place)) => {
            let refusal = format!(in alloc; "refused {kind:?} at {place}")?;
            Ok(Reading::Refused(refusal))
        }
        Err(ReadAnswer::Memory) => bail!("memory"),
    }
}

/// What is told of a script each time that it is run.
fn told_twice<F: Fn(Global, &Program, &Entry) -> Result<String>>(
    alloc: Global,
    source: &str,
    fuel: u64,
    tell: F,
) -> Result<String>
    requires { F.IsAlwaysCallable tell }
{
    let program = match reading_of(alloc, source)? {
        Reading::Program(program) => program,
        Reading::Refused(refusal) => return Ok(refusal),
    };
    let entry = entry_with(alloc, fuel)?;
    let first = tell(alloc, &program, &entry)?;
    let second = tell(alloc, &program, &entry)?;
    ensure!(first == second, "two runs differ: {first}, {second}");
    Ok(first)
}

pub(crate) fn entry_with(alloc: Global, fuel: u64) -> Result<Entry> {
    Ok(Entry {
        url: text(alloc, "http://example.com/a")?,
        host: text(alloc, "example.com")?,
        now: NOW,
        settings: SETTINGS,
        fuel,
    })
}

fn over_map(alloc: Global, program: &Program, entry: &Entry) -> Result<String> {
    let names = known_names(alloc)?;
    let mut host = MapHost::new(alloc, &names);
    let answer = answer_over(alloc, program, entry, &mut host);
    written(alloc, &answer, host.asked().as_slice())
}

fn counted_over_map(alloc: Global, program: &Program, entry: &Entry) -> Result<String> {
    let names = known_names(alloc)?;
    let mut host = MapHost::new(alloc, &names);
    let answer = answer_over(alloc, program, entry, &mut host);
    written_in_numbers(alloc, &answer, host.asked().as_slice())
}

fn over_table(alloc: Global, program: &Program, entry: &Entry) -> Result<String> {
    let names = known_names(alloc)?;
    let mut host = TracingHost::new(alloc, &names);
    let answer = answer_over(alloc, program, entry, &mut host);
    written(alloc, &answer, host.asked().as_slice())
}

fn calls_over_table(
    alloc: Global,
    program: &Program,
    entry: &Entry,
    known: &str,
) -> Result<String> {
    let names = known_without_address(alloc, known)?;
    let mut host = NotingHost::new(alloc, &names);
    match answer_over(alloc, program, entry, &mut host) {
        RunAnswer::Memory => bail!("memory"),
        _ => host.written(alloc),
    }
}

/// What one run comes to, with a counter of its own.
fn answer_over<H: Host>(
    alloc: Global,
    program: &Program,
    entry: &Entry,
    host: &mut H,
) -> RunAnswer {
    one_run::<H, Brand>(alloc, program, entry, host, Blank::new(1))
}

fn one_run<H: Host, L: Ledger>(
    alloc: Global,
    program: &Program,
    entry: &Entry,
    host: &mut H,
    blank: Blank,
) -> RunAnswer
    requires name { blank.name ≡ L.name }
    requires parts { blank.parts ≡ L.parts }
    requires some { 0 < blank.parts }
{
    let mut runs = Steps::<L>::new(blank);
    run(alloc, program, entry, host, &mut runs)
}
