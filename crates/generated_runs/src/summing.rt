// A script for generated URLs, over a link in memory.
ghost use Rattle.std.specs.Prelude.{◌≡◌, ◌<◌, ◌≤◌, ◌^◌, IfOk, length, map};
ghost use Rattle.std.specs.List.{sum_by};
ghost use Rattle.js_interp.specs.Answers.{entry_of};
ghost use Rattle.poll_log.specs.Sendings.{AreTerms};
ghost use Rattle.pac_plan.specs.Plan.{Outside};
ghost use Rattle.pac_plan.specs.Follows.{Follows, IsUnlessMemory};
ghost use Rattle.pac_plan.specs.OutputView.{made};
ghost use Rattle.memory_talk.specs.Laws.{AreAddresses};
ghost use Rattle.memory_talk.proofs.Answering.{answering};
ghost use Rattle.report_text.specs.Report.{seen, seen_end};
ghost use Rattle.url_runs.specs.Runs.{program_runs};
ghost use Rattle.generated_runs.specs.Summing as plan;

use answer_table::AnswerTable;
use batch_text::MOST_URLS;
use js_interp::Entry;
use js_scope::Program;
use memory_talk::CountingDice;
use pac_generate::{KnownAnswers, MapLink, Summary, kinds_of, summary_text};
use pac_plan::{Output, Status};
use poll_loop::Upstream;
use proxy_list::{ProxyKind, parse_list};
use report_text::{End, UrlEnd};
use std::alloc::Global;
use std::sync::ledger::Ledger;
use step_counter::Steps;
use url_runs::end_urls;
use utf16_text::{Memory, Text};

/// From what a batch was generated.
#[derive(Clone, Copy)]
pub struct Seed {
    pub seed: u32,
    pub sites: u32,
}

/// A network in memory: what it answers to each name, and whom to ask, and how often.
#[derive(Clone, Copy)]
pub struct Network<'a> {
    pub answers: &'a AnswerTable,
    pub upstream: Upstream,
}

/// Runs a script for all generated URLs at once over a network in memory, and sums up when each URL has ended. The
/// entries are what the runs are for, and the type `K` knows the answers. Memory comes for want of it, or of room in
/// the link.
pub fn sum_urls<K: KnownAnswers, L: Ledger>(
    alloc: Global,
    from: Seed,
    program: &Program,
    entries: Vec<Entry>,
    network: Network<'_>,
    runs: &mut Steps<L>,
) -> Result<Output, Memory>
    requires terms { AreTerms network.upstream.terms }
    requires addresses { AreAddresses network.answers.now }
    requires few { length entries.items ≤ MOST_URLS }
    requires known { network.answers.now ≡ K.answers }
    ensures { (o : Outside) → Follows answering (plan.sum_plan from network.entry.answers.now network.entry.upstream (program_runs program.now) (map entry_of entries.items))
        (record o { runs = runs.old }) (record o { runs = runs.new }) (made result) }
{
    let mut link = MapLink::<K>::new(alloc, network.answers)?;
    let mut dice = CountingDice::new();
    let ended = end_urls(
        alloc,
        program,
        entries,
        network.upstream,
        &mut link,
        &mut dice,
        runs,
    );
    let _log = link.log();
    match ended {
        Ok(ends) => sum_up(alloc, from, dice.count(), &ends),
        Err(_) => Err(Memory),
    }
}

// What it says of these ends, where so many names were sent.
fn sum_up(alloc: Global, from: Seed, names: u64, ends: &[UrlEnd]) -> Result<Output, Memory>
    requires { sum_by (λ end. end.runs) ends.now < 2 ^ 64 }
    ensures { IsUnlessMemory (plan.said (plan.summary from names (map seen_end ends.now))) (made result) }
{
    let kinds = kinds_tried(alloc, ends)?;
    let summary = Summary {
        seed: from.seed,
        sites: from.sites,
        urls: ends.len(),
        runs: ends.iter().map(|end| end.runs).sum(),
        names,
        kinds: kinds_of(&kinds),
    };
    let text = summary_text(alloc, summary)?;
    Ok(Output {
        status: Status::Good,
        text: text.into_bytes(),
    })
}

// The kind of the proxy that is tried first, of each URL that has one.
#[tactic(auto, using(crate::proofs::Counting::kinds_more))]
fn kinds_tried(alloc: Global, ends: &[UrlEnd]) -> Result<Vec<ProxyKind>, Memory>
    ensures { IfOk result (λ kinds. kinds.items ≡ plan.kinds_tried (map seen_end ends.now)) }
{
    let mut kinds = Vec::new(alloc);
    for end in ends {
        if let Some(kind) = kind_tried(alloc, &end.end)? {
            kinds.push(kind)?;
        }
    }
    Ok(kinds)
}

fn kind_tried(alloc: Global, end: &End) -> Result<Option<ProxyKind>, Memory>
    ensures { IfOk result (λ kind. kind ≡ plan.kind_tried (seen end.now)) }
{
    match end.result() {
        Some(text) => first_kind(alloc, text),
        None => Ok(None),
    }
}

fn first_kind(alloc: Global, text: &Text) -> Result<Option<ProxyKind>, Memory>
    ensures { IfOk result (λ kind. kind ≡ plan.first_kind text.now) }
{
    let proxies = parse_list(alloc, text)?;
    Ok(proxies.as_slice().first().map(|proxy| proxy.kind))
}
