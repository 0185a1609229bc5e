// One run over the names that are told.
ghost use Rattle.std.specs.Prelude.{◌≡◌, ◌<◌, ◌∷◌, [], IfOk, map};
ghost use Rattle.js_host.specs.Answers.{AnswerMap, Extends, partly};
ghost use Rattle.js_host.specs.Seen.{Seen};
ghost use Rattle.js_interp.specs.Answers.{Answers, entry_of, seen_outcome};
ghost use Rattle.js_tree.specs.Tree.{statements_of};
ghost use Rattle.batch_text.specs.Batch.{entry_seen};
ghost use Rattle.batch_text.specs.View.{seen_of};
ghost use Rattle.report_text.specs.Report.{done, report_of};
ghost use Rattle.url_runs.specs.Runs.{program_runs};
ghost use Rattle.pac_command.specs.Scripts.{WasRead};
ghost use Rattle.library_calls.specs.Told.{Comes, Reads, Tells, read_as};
ghost use Rattle.library_calls.specs.Finding.{
  Agrees,
  asked_in,
  entry_for,
  found_proxy,
  name_wanted,
  report_told,
  seen_asked,
  told_of_run,
};

use crate::early::Early;
use crate::inputs::{names_in, script_in, url_in};
use crate::settings::{Settings, zone_of};
use crate::told::{Status, Told};
use answer_table::AnswerTable;
use batch_text::{Batch, BatchLine, View};
use js_interp::{Entry, Outcome, RunAnswer, run};
use js_scope::{Program, resolve};
use js_tree::Script;
use pac_calendar::Zone;
use pac_clocks::shown;
use pac_functions::PacSettings;
use pac_names::LookupName;
use report_text::{End, UrlEnd, report};
use std::alloc::Global;
use std::marker::Brand;
use std::sync::ledger::{Blank, Ledger};
use step_counter::Steps;
use tracing_host::TracingHost;
use utf16_text::Memory;

/// Runs a script once for a URL, over the names that are told. It tells the report of the run, or the first name that
/// the run needs and that isn't told. A name that has a line is told whole: where it has none for one family, it has no
/// address there.
pub fn find_proxy(
    alloc: Global,
    script: &[u8],
    url: &[u8],
    names: &[u8],
    settings: &Settings,
) -> Result<Told, Memory>
    // Whatever all names are that agree with those that are told; and there are such.
    ensures told { (all : AnswerMap) → Agrees all names.now → Tells (found_proxy all script.now url.now names.now settings.now) result }
    ensures agrees { (all : AnswerMap) × Agrees all names.now }
{
    match found(alloc, script, url, names, settings) {
        Ok(told) => Ok(told),
        Err(early) => early.told(),
    }
}

fn found(
    alloc: Global,
    script: &[u8],
    url: &[u8],
    names: &[u8],
    settings: &Settings,
) -> Result<Told, Early>
    ensures { (all : AnswerMap) → Agrees all names.now → Comes (found_proxy all script.now url.now names.now settings.now) result }
{
    let zone = zone_of(alloc, settings)?;
    let script = script_in(alloc, script)?;
    let known = names_in(alloc, names)?;
    let asked = asked_in(alloc, script, url, settings, zone)?;
    let told = told_of_run(alloc, &asked, &known)?;
    Ok(told)
}

/// A script that is run for one URL, as a batch of it alone.
#[derive(Drop)]
struct Asked {
    program: Program,
    batch: Batch,
    entry: Entry,
}

fn asked_in(
    alloc: Global,
    script: Script,
    url: &[u8],
    settings: &Settings,
    zone: Zone,
) -> Result<Asked, Early>
    requires { WasRead script }
    ensures { Reads (asked_in settings.now zone script url.now) (read_as seen_asked result) }
{
    let seen = url_in(alloc, url)?;
    let entry = entry_for(alloc, &seen, settings, zone)?;
    let batch = only(alloc, BatchLine::Get(settings.moment, seen))?;
    let program = resolve(alloc, script)?;
    Ok(Asked {
        program,
        batch,
        entry,
    })
}

// What the run is for.
fn entry_for(alloc: Global, seen: &View, settings: &Settings, zone: Zone) -> Result<Entry, Memory>
    ensures { IfOk result (λ entry. entry_of entry ≡ entry_for settings.now zone (seen_of seen.now)) }
{
    Ok(Entry {
        url: seen.url.copy(alloc)?,
        host: seen.host.copy(alloc)?,
        now: shown(alloc, settings.moment, zone)?,
        settings: PacSettings {
            my_ip: settings.my_ip,
        },
        fuel: settings.fuel,
    })
}

fn only(alloc: Global, line: BatchLine) -> Result<Batch, Memory>
    ensures { IfOk result (λ batch. batch ≡ line ∷ []) }
{
    let mut batch = Batch::new(alloc);
    batch.push(alloc, line)?;
    Ok(batch)
}

// The report of the run, or the first name that it needs and that isn't known.
fn told_of_run(alloc: Global, asked: &Asked, known: &AnswerTable) -> Result<Told, Memory>
    ensures { (all : AnswerMap) → Extends all known.now → Tells (told_of_run all known.now (seen_asked asked.now)) result }
{
    match ran::<Brand>(alloc, &asked.program, &asked.entry, known, Blank::new(1)) {
        RunAnswer::Done(outcome) => reported(alloc, &asked.batch, outcome),
        RunAnswer::Missing(name) => wanted(alloc, &name),
        RunAnswer::Memory => Err(Memory),
    }
}

// The run, over the known names alone.
fn ran<L: Ledger>(
    alloc: Global,
    program: &Program,
    entry: &Entry,
    known: &AnswerTable,
    blank: Blank,
) -> RunAnswer
    requires name { blank.name ≡ L.name }
    requires parts { blank.parts ≡ L.parts }
    requires some { 0 < blank.parts }
    ensures { (after : Seen) × Answers (program_runs program.now (entry_of entry.entry.now)) (partly known.now) result after }
{
    let mut host = TracingHost::new(alloc, known);
    let mut runs = Steps::<L>::new(blank);
    run(alloc, program, entry, &mut host, &mut runs)
}

fn reported(alloc: Global, batch: &Batch, outcome: Outcome) -> Result<Told, Memory>
    ensures { Tells (report_told (report_of (map entry_seen batch.now) (record { end = done (seen_outcome outcome); runs = 1 } ∷ []))) result }
{
    let end = UrlEnd {
        end: End::Done(outcome),
        runs: 1,
    };
    Ok(Told {
        status: Status::Done,
        bytes: report(alloc, batch, &[end])?,
    })
}

fn wanted(alloc: Global, name: &LookupName) -> Result<Told, Memory>
    ensures { Tells (name_wanted name.now) result }
{
    let mut bytes = Vec::new(alloc);
    bytes.extend_from_slice(name.bytes())?;
    Ok(Told {
        status: Status::NameWanted,
        bytes,
    })
}
