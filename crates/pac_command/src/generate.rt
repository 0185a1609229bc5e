// `generate`: a large input from two numbers, resolved over a link in memory and summed up.
ghost use Rattle.std.specs.Prelude.{◌≡◌, ◌≤◌};
ghost use Rattle.pac_plan.specs.Plan.{Outside};
ghost use Rattle.pac_plan.specs.Follows.{Follows};
ghost use Rattle.pac_plan.specs.OutputView.{made};
ghost use Rattle.poll_log.specs.Sendings.{AreTerms};
ghost use Rattle.memory_talk.proofs.Answering.{answering};
ghost use Rattle.pac_generate.specs.Generated.{generated};
ghost use Rattle.pac_command.specs.Generate as plan;
ghost use Rattle.pac_command.specs.Scripts.{WasRead};

use crate::given::Given;
use crate::output::refused_script;
use crate::urls::entries_for;
use batch_text::MOST_URLS;
use generated_runs::{Network, Seed, sum_urls};
use js_parser::read_script;
use js_scope::resolve as resolve_names;
use js_tree::{ReadAnswer, Script};
use pac_calendar::Zone;
use pac_functions::PacSettings;
use pac_generate::{Generated, MOMENT};
use pac_plan::Output;
use pac_ports::{Server, Servers};
use pac_words::{Generating, LOCAL, USUAL_FUEL, USUAL_PORT, USUAL_TRIES, USUAL_WAIT};
use poll_log::Terms;
use poll_loop::Upstream;
use std::alloc::Global;
use std::marker::Brand;
use std::mem;
use std::sync::ledger::Ledger;
use step_counter::Steps;
use utf16_text::Memory;

/// Generates a script, a batch of URLs and answers to all names, runs the script for all URLs at once over a link that
/// answers from them, and sums up. Memory comes for want of it, or of room in the link.
pub(crate) fn generate<L: Ledger>(
    alloc: Global,
    generating: Generating,
    runs: &mut Steps<L>,
) -> Result<Output, Memory>
    ensures { (o : Outside) → Follows answering (plan.generate_plan generating.seed generating.sites) (record o { runs = runs.old }) (record o { runs = runs.new }) (made result) }
{
    let from = Seed {
        seed: generating.seed,
        sites: generating.sites,
    };
    let input = pac_generate::generate(alloc, from.seed, from.sites)?;
    match read_script(alloc, &input.script) {
        Ok(script) => sum_script(alloc, from, &input, script, runs),
        Err(ReadAnswer::Refused(kind, place)) => refused_script(alloc, kind, place),
        Err(ReadAnswer::Memory) => Err(Memory),
    }
}

/// Sums up the runs of the generated script.
fn sum_script<L: Ledger>(
    alloc: Global,
    from: Seed,
    input: &Generated,
    script: Script,
    runs: &mut Steps<L>,
) -> Result<Output, Memory>
    requires few { from.sites ≤ MOST_URLS }
    requires input { input.now ≡ generated from.seed from.sites }
    requires read { WasRead script }
    ensures { (o : Outside) → Follows answering (plan.sum_generated from script) (record o { runs = runs.old }) (record o { runs = runs.new }) (made result) }
{
    let entries = entries_for(alloc, &input.batch, &usual_given())?;
    let program = resolve_names(alloc, script)?;
    let network = Network {
        answers: &input.map,
        upstream: usual_upstream(),
    };
    let output = sum_urls::<Brand, L>(alloc, from, &program, entries, network, runs);
    // The process ends with its command, so the tree of a script isn't taken apart node by node.
    mem::forget(program);
    output
}

// What each run is given.
fn usual_given() -> Given
    ensures { result ≡ plan.usual_given }
{
    Given {
        start: MOMENT,
        zone: Zone::utc(),
        settings: PacSettings { my_ip: LOCAL },
        fuel: USUAL_FUEL,
    }
}

// How names are asked for. The link has no servers, so any serve.
fn usual_upstream() -> Upstream
    ensures same { result ≡ plan.usual_upstream }
    ensures ready { AreTerms result.terms }
{
    let server = Server {
        address: LOCAL,
        port: USUAL_PORT,
    };
    let terms = Terms {
        wait: USUAL_WAIT,
        tries: USUAL_TRIES,
    };
    let servers = Servers {
        first: server,
        second: server,
    };
    Upstream { servers, terms }
}
