// A script for URLs, against a map of all names.
ghost use Rattle.std.specs.Prelude.{◌≡◌, ℕ, ◌+◌, ◌≤◌, IfOk, OnErr, OnOk, length, map};
ghost use Rattle.js_interp.specs.Answers.{entry_of, seen_outcome};
ghost use Rattle.pac_plan.specs.Plan.{Outside};
ghost use Rattle.pac_plan.specs.Follows.{Follows};
ghost use Rattle.pac_plan.specs.OutputView.{made};
ghost use Rattle.pac_ask.specs.Talks.{talks};
ghost use Rattle.report_text.specs.Report.{seen_end};
ghost use Rattle.url_runs.specs.Runs.{outcome_of, program_runs, seen_work};
ghost use Rattle.url_runs.specs.Mapping as plan;

use crate::Work;
use crate::preparing::prepared_once;
use crate::reports::reported;
use answer_table::AnswerTable;
use js_interp::{Entry, Outcome, Prepared, RunAnswer};
use js_scope::Program;
use pac_plan::Output;
use report_text::{End, UrlEnd};
use std::alloc::Global;
use std::mem;
use std::sync::ledger::Ledger;
use step_counter::Steps;
use tracing_host::MapHost;
use utf16_text::Memory;

/// Runs a script once for each URL of a batch, in their order, and reports. A name that the answers don't hold has no
/// address. The memory of the script's tree is left to the system.
pub fn map_urls<L: Ledger>(
    alloc: Global,
    work: Work,
    answers: &AnswerTable,
    runs: &mut Steps<L>,
) -> Result<Output, Memory>
    ensures { (o : Outside) → Follows talks (plan.map_plan answers.now (seen_work work))
        (record o { runs = runs.old }) (record o { runs = runs.new }) (made result) }
{
    let Work {
        program,
        batch,
        entries,
    } = work;
    let ends = run_each(alloc, &program, entries, answers, runs)?;
    // The process ends with its command, so the tree of a script isn't taken apart node by node.
    mem::forget(program);
    reported(alloc, &batch, &ends)
}

/// Runs a script once for each URL.
fn run_each<L: Ledger>(
    alloc: Global,
    program: &Program,
    entries: Vec<Entry>,
    answers: &AnswerTable,
    runs: &mut Steps<L>,
) -> Result<Vec<UrlEnd>, Memory>
    ensures ends { IfOk result (λ ends. map seen_end ends.items ≡ map (plan.mapped (program_runs program.now) answers.now) (map entry_of entries.items)) }
    ensures ran { OnOk result (runs.new ≡ runs.old + length entries.items) }
    ensures memory { OnErr result ((done : ℕ) × (done ≤ length entries.items) × (runs.new ≡ runs.old + done)) }
{
    let program = prepared_once(alloc, program, &entries)?;
    run_prepared(alloc, &program, entries, answers, runs)
}

// The same, once the script is loaded where that serves several runs.
fn run_prepared<L: Ledger>(
    alloc: Global,
    program: &Prepared,
    entries: Vec<Entry>,
    answers: &AnswerTable,
    runs: &mut Steps<L>,
) -> Result<Vec<UrlEnd>, Memory>
    ensures ends { IfOk result (λ ends. map seen_end ends.items ≡ map (plan.mapped (program_runs program.now.program.now) answers.now) (map entry_of entries.items)) }
    ensures ran { OnOk result (runs.new ≡ runs.old + length entries.items) }
    ensures memory { OnErr result ((done : ℕ) × (done ≤ length entries.items) × (runs.new ≡ runs.old + done)) }
{
    let mut ends = Vec::new(alloc);
    for entry in entries {
        let outcome = run_against(alloc, program, &entry, answers, runs)?;
        ends.push(UrlEnd {
            end: End::Done(outcome),
            runs: 1,
        })?;
    }
    Ok(ends)
}

/// The outcome of one run.
fn run_against<L: Ledger>(
    alloc: Global,
    program: &Prepared,
    entry: &Entry,
    answers: &AnswerTable,
    runs: &mut Steps<L>,
) -> Result<Outcome, Memory>
    ensures outcome { IfOk result (λ outcome. outcome_of (program_runs program.now.program.now) answers.now (entry_of entry.entry.now) ≡ seen_outcome outcome) }
    ensures ran { runs.new ≡ runs.old + 1 }
{
    let mut host = MapHost::new(alloc, answers);
    match program.run(alloc, entry, &mut host, runs) {
        RunAnswer::Done(outcome) => Ok(outcome),
        RunAnswer::Missing(_) => unreachable!("the host knows every name"),
        RunAnswer::Memory => Err(Memory),
    }
}
