// The report of a batch, and its status.
ghost use Rattle.std.specs.Prelude.{◌≡◌, map};
ghost use Rattle.std.specs.List.{list_any};
ghost use Rattle.pac_plan.specs.Follows.{IsUnlessMemory};
ghost use Rattle.pac_plan.specs.OutputView.{made};
ghost use Rattle.batch_text.specs.Batch.{entry_seen};
ghost use Rattle.report_text.specs.Report.{seen, seen_end};
ghost use Rattle.url_runs.specs.Reports as spec;

use batch_text::Batch;
use js_interp::Ending;
use pac_plan::{Output, Status};
use report_text::{End, UrlEnd, report};
use std::alloc::Global;
use utf16_text::Memory;

/// The report of a batch, whose URLs end so, in their order.
pub(crate) fn reported(alloc: Global, batch: &Batch, ends: &[UrlEnd]) -> Result<Output, Memory>
    ensures { IsUnlessMemory (spec.reported (map entry_seen batch.now) (map seen_end ends.now)) (made result) }
{
    let text = report(alloc, batch, ends)?;
    Ok(Output {
        status: status_of(ends),
        text,
    })
}

#[tactic(auto, using(crate::proofs::Tests::any_mapped))]
fn status_of(ends: &[UrlEnd]) -> Status
    ensures { result ≡ spec.status_of (map seen_end ends.now) }
{
    if some_unanswered(ends) {
        Status::Unanswered
    } else if some_fault(ends) {
        Status::ScriptFault
    } else {
        Status::Good
    }
}

fn some_unanswered(ends: &[UrlEnd]) -> bool
    ensures { result ≡ list_any (λ e. spec.is_unanswered (seen e.end)) ends.now }
{
    ends.iter().any(|end| is_unanswered(&end.end))
}

fn is_unanswered(end: &End) -> bool
    ensures { result ≡ spec.is_unanswered (seen end.now) }
{
    matches!(end, End::Unanswered(_))
}

fn some_fault(ends: &[UrlEnd]) -> bool
    ensures { result ≡ list_any (λ e. spec.is_fault (seen e.end)) ends.now }
{
    ends.iter().any(|end| is_fault(&end.end))
}

fn is_fault(end: &End) -> bool
    ensures { result ≡ spec.is_fault (seen end.now) }
{
    match end {
        End::Done(outcome) => matches!(outcome.ending, Ending::Fault(_)),
        End::Unanswered(_) => false,
    }
}
