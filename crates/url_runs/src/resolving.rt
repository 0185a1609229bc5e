// A script for URLs, over a link.
ghost use Rattle.std.specs.Prelude.{◌≡◌, IfErr, IfOk, map};
ghost use Rattle.js_interp.specs.Answers.{entry_of};
ghost use Rattle.poll_log.specs.Sendings.{AreTerms};
ghost use Rattle.pac_plan.specs.Plan.{Outside, around};
ghost use Rattle.pac_plan.specs.Follows.{Follows};
ghost use Rattle.pac_plan.specs.OutputView.{made};
ghost use Rattle.pac_ask.specs.Talks.{talks};
ghost use Rattle.batch_text.specs.Batch.{entry_seen};
ghost use Rattle.report_text.specs.Report.{seen, seen_end};
ghost use Rattle.url_runs.specs.Runs.{program_runs, seen_for, seen_run, seen_work};
ghost use Rattle.url_runs.specs.Ends.{HaveEnded, IsSaid, end_of, seen_ends, session_end};
ghost use Rattle.url_runs.specs.Resolving as plan;
ghost use Rattle.url_runs.specs.Resolving.{Completion};

use crate::preparing::prepared;
use crate::reports::reported;
use crate::{UrlRun, Work};
use batch_text::Batch;
use js_interp::{Entry, Outcome, Prepared};
use js_scope::Program;
use pac_plan::{Output, Status, line};
use pac_ports::{Dice, Link};
use poll_loop::{PollError, Upstream};
use report_text::{End, UrlEnd};
use session_core::{Progress, Session, run_all};
use std::alloc::Global;
use std::mem;
use std::sync::ledger::Ledger;
use step_counter::Steps;
use utf16_text::Memory;

/// Runs a script for all URLs of a batch at once, asks the servers for the names that the runs miss, and reports when
/// each URL has ended: with its outcome, or with a name that nobody answered. The memory of the script's tree is left to
/// the system.
pub fn resolve_urls<N: Link, D: Dice, L: Ledger>(
    alloc: Global,
    work: Work,
    upstream: Upstream,
    link: &mut N,
    dice: &mut D,
    runs: &mut Steps<L>,
) -> Result<Output, Memory>
    requires { AreTerms upstream.terms }
    ensures { (complete : Completion) (o : Outside) → Follows talks (plan.resolve_plan complete upstream (seen_work work))
        (around o (N.state link.old) (D.told dice.old) runs.old) (around o (N.state link.new) (D.told dice.new) runs.new) (made result) }
{
    let Work {
        program,
        batch,
        entries,
    } = work;
    let ended = end_urls(alloc, &program, entries, upstream, link, dice, runs);
    // The process ends with its command, so the tree of a script isn't taken apart node by node.
    mem::forget(program);
    resolved(alloc, &batch, ended)
}

// What is said of a batch whose URLs have ended so.
fn resolved(
    alloc: Global,
    batch: &Batch,
    ended: Result<Vec<UrlEnd>, PollError>,
) -> Result<Output, Memory>
    ensures { IsSaid (map entry_seen batch.now) (seen_ends ended) (made result) }
{
    match ended {
        Ok(ends) => reported(alloc, batch, &ends),
        Err(PollError::Link) => line(alloc, Status::LinkFault, "fault link", "", ""),
        Err(PollError::Memory) => Err(Memory),
    }
}

/// How it ends with each URL, in their order, where a script is run for all of them at once and the servers are asked
/// for the names that the runs miss. The entries are what the runs are for. Link comes where the link failed, Memory for
/// want of it.
pub fn end_urls<N: Link, D: Dice, L: Ledger>(
    alloc: Global,
    program: &Program,
    entries: Vec<Entry>,
    upstream: Upstream,
    link: &mut N,
    dice: &mut D,
    runs: &mut Steps<L>,
) -> Result<Vec<UrlEnd>, PollError>
    requires { AreTerms upstream.terms }
    ensures { (o : Outside) → HaveEnded upstream (program_runs program.now) (map entry_of entries.items)
        (around o (N.state link.old) (D.told dice.old) runs.old) (seen_ends result) (around o (N.state link.new) (D.told dice.new) runs.new) }
{
    match prepared(alloc, program, &entries) {
        Ok(program) => end_prepared(alloc, &program, entries, upstream, link, dice, runs),
        Err(Memory) => Err(PollError::Memory),
    }
}

// The same, once the script is loaded.
fn end_prepared<N: Link, D: Dice, L: Ledger>(
    alloc: Global,
    program: &Prepared,
    entries: Vec<Entry>,
    upstream: Upstream,
    link: &mut N,
    dice: &mut D,
    runs: &mut Steps<L>,
) -> Result<Vec<UrlEnd>, PollError>
    requires { AreTerms upstream.terms }
    ensures { (o : Outside) → HaveEnded upstream (program_runs program.now.program.now) (map entry_of entries.items)
        (around o (N.state link.old) (D.told dice.old) runs.old) (seen_ends result) (around o (N.state link.new) (D.told dice.new) runs.new) }
{
    let Ok(all) = runs_for(alloc, program, entries) else {
        return Err(PollError::Memory);
    };
    match run_all(alloc, all, upstream, link, dice, runs) {
        Ok(sessions) => ends_of(alloc, sessions),
        Err(PollError::Link) => Err(PollError::Link),
        Err(PollError::Memory) => Err(PollError::Memory),
    }
}

fn runs_for<'p>(
    alloc: Global,
    program: &'p Prepared<'p>,
    entries: Vec<Entry>,
) -> Result<Vec<UrlRun<'p>>, Memory>
    ensures { IfOk result (λ all. map seen_run all.items ≡ map (seen_for (program_runs program.now.program.now)) entries.items) }
{
    let mut all = Vec::new(alloc);
    for entry in entries {
        all.push(UrlRun { program, entry })?;
    }
    Ok(all)
}

/// How these sessions ended, in their order. Memory comes for want of it, and nothing else.
fn ends_of<'p>(
    alloc: Global,
    sessions: Vec<Session<UrlRun<'p>, Outcome>>,
) -> Result<Vec<UrlEnd>, PollError>
    ensures ends { IfOk result (λ ends. map seen_end ends.items ≡ map session_end sessions.entry.items) }
    ensures memory { IfErr result (λ e. e ≡ PollError.Memory) }
{
    let mut ends = Vec::new(alloc);
    for session in sessions {
        let Session { progress, runs, .. } = session;
        let end = UrlEnd {
            end: end_of(progress),
            runs,
        };
        if ends.push(end).is_err() {
            return Err(PollError::Memory);
        }
    }
    Ok(ends)
}

/// How a session ended.
fn end_of(progress: Progress<Outcome>) -> End
    ensures { seen result ≡ end_of progress }
{
    match progress {
        Progress::Finished(outcome) => End::Done(outcome),
        Progress::Unanswered(name) => End::Unanswered(name),
        // No session waits once all have ended.
        Progress::Waiting(name) => End::Unanswered(name),
    }
}
