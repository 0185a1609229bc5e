// Scripts that are loaded once for many runs.
ghost use Rattle.std.specs.Prelude.{◌≡◌, ◌<◌};
ghost use Rattle.js_interp.specs.Loads.{IsImageOf};

use crate::answers::{written, written_end};
use crate::noting_host::NotingHost;
use crate::scripts::{Reading, entry_with, reading_of};
use crate::surroundings::{LATER, SETTINGS, known_names};
use anyhow::{Context, Result, bail, ensure};
use case_rows::text;
use js_interp::{Entry, Image, LoadAnswer, Prepared, RunAnswer, load, run, run_loaded};
use js_scope::Program;
use pac_functions::PacSettings;
use std::alloc::Global;
use std::marker::Brand;
use std::sync::ledger::{Blank, Ledger};
use step_counter::Steps;
use utf16_text::Memory;

/// Whether the load of a script gives an image, and how a run of the script ends. Runs from the image, at two moments
/// and for two URLs in turn, come to what runs come to that load the script: how they end, with place and detail, what
/// they ask, which alerts are kept, and each call that they make of a host that knows some names alone. So do runs of
/// the prepared program, also for settings and fuel that its image isn't for.
pub(crate) fn image_and_end(alloc: Global, source: &str, fuel: u64) -> Result<String> {
    match reading_of(alloc, source)? {
        Reading::Program(program) => both_ways::<Brand>(alloc, &program, fuel, Blank::new(1)),
        Reading::Refused(refusal) => Ok(refusal),
    }
}

fn both_ways<L: Ledger>(alloc: Global, program: &Program, fuel: u64, blank: Blank) -> Result<String>
    requires name { blank.name ≡ L.name }
    requires parts { blank.parts ≡ L.parts }
    requires some { 0 < blank.parts }
{
    let mut runs = Steps::<L>::new(blank);
    let kind = kind_of_load(alloc, program, fuel, &mut runs)?;
    runs_prepared(alloc, program, fuel, &mut runs)?;
    let told = by_script(alloc, program, &entry_with(alloc, fuel)?, &mut runs)?;
    let (end, _) = told.split_once('\n').context("an end")?;
    Ok(format!(in alloc; "{kind}, {end}")?)
}

/// Whether the load gives an image; if so, runs are made from it.
fn kind_of_load<L: Ledger>(
    alloc: Global,
    program: &Program,
    fuel: u64,
    runs: &mut Steps<L>,
) -> Result<&'static str> {
    match load(alloc, program, &SETTINGS, fuel) {
        LoadAnswer::Image(image) => runs_from(alloc, program, &image, fuel, runs),
        LoadAnswer::Plain => Ok("plain"),
        LoadAnswer::Memory => bail!("memory"),
    }
}

/// Three runs from an image: two for one URL, and one for another between them.
fn runs_from<L: Ledger>(
    alloc: Global,
    program: &Program,
    image: &Image,
    fuel: u64,
    runs: &mut Steps<L>,
) -> Result<&'static str>
    requires { IsImageOf program.now image.now }
{
    same_from(alloc, program, image, &entry_with(alloc, fuel)?, runs)?;
    same_from(alloc, program, image, &later_entry(alloc, fuel)?, runs)?;
    same_from(alloc, program, image, &entry_with(alloc, fuel)?, runs)?;
    Ok("image")
}

/// A run from an image comes to what a run comes to that loads the script.
fn same_from<L: Ledger>(
    alloc: Global,
    program: &Program,
    image: &Image,
    entry: &Entry,
    runs: &mut Steps<L>,
) -> Result<()>
    requires { IsImageOf program.now image.now }
{
    let serves = image.serves(&entry.settings, entry.fuel);
    ensure!(serves, "the image is for this run");
    let names = known_names(alloc)?;
    let mut host = NotingHost::new(alloc, &names);
    let answer = run_loaded(alloc, program, image, entry, &mut host, runs);
    let found = told(alloc, &answer, &host)?;
    let wanted = by_script(alloc, program, entry, runs)?;
    ensure!(found == wanted, "from the image {found}, else {wanted}");
    Ok(())
}

/// Each run of the prepared program comes to what a run comes to that loads the script.
fn runs_prepared<L: Ledger>(
    alloc: Global,
    program: &Program,
    fuel: u64,
    runs: &mut Steps<L>,
) -> Result<()> {
    match Prepared::new(alloc, program, &SETTINGS, fuel) {
        Ok(prepared) => same_for_each(alloc, program, &prepared, fuel, runs),
        Err(Memory) => bail!("memory"),
    }
}

/// At another moment, with less fuel, and with other settings.
fn same_for_each<L: Ledger>(
    alloc: Global,
    program: &Program,
    prepared: &Prepared,
    fuel: u64,
    runs: &mut Steps<L>,
) -> Result<()> {
    same_prepared(alloc, program, prepared, &later_entry(alloc, fuel)?, runs)?;
    let less = entry_with(alloc, fuel.saturating_sub(1))?;
    same_prepared(alloc, program, prepared, &less, runs)?;
    let elsewhere = Entry {
        settings: PacSettings { my_ip: 0x0A09_0807 },
        ..entry_with(alloc, fuel)?
    };
    same_prepared(alloc, program, prepared, &elsewhere, runs)
}

fn same_prepared<L: Ledger>(
    alloc: Global,
    program: &Program,
    prepared: &Prepared,
    entry: &Entry,
    runs: &mut Steps<L>,
) -> Result<()> {
    let names = known_names(alloc)?;
    let mut host = NotingHost::new(alloc, &names);
    let answer = prepared.run(alloc, entry, &mut host, runs);
    let found = told(alloc, &answer, &host)?;
    let wanted = by_script(alloc, program, entry, runs)?;
    ensure!(found == wanted, "prepared {found}, else {wanted}");
    Ok(())
}

/// What is told of a run that loads the script.
fn by_script<L: Ledger>(
    alloc: Global,
    program: &Program,
    entry: &Entry,
    runs: &mut Steps<L>,
) -> Result<String> {
    let names = known_names(alloc)?;
    let mut host = NotingHost::new(alloc, &names);
    let answer = run(alloc, program, entry, &mut host, runs);
    told(alloc, &answer, &host)
}

/// The end of a run in a line, and behind it the answer and the calls of the host.
fn told(alloc: Global, answer: &RunAnswer, host: &NotingHost) -> Result<String> {
    let end = written_end(alloc, answer)?;
    let whole = written(alloc, answer, host.asked())?;
    let calls = host.written(alloc)?;
    Ok(format!(in alloc; "{end}\n{whole}\n{calls}")?)
}

/// An entry at another moment, with another URL.
fn later_entry(alloc: Global, fuel: u64) -> Result<Entry> {
    Ok(Entry {
        url: text(alloc, "http://b.example/b")?,
        host: text(alloc, "b.example")?,
        now: LATER,
        settings: SETTINGS,
        fuel,
    })
}
