// A script and a URL that it is run for.
use js_host::Host;
use js_interp::{Entry, Outcome, Prepared, RunAnswer};
use session_core::{Attempt, Run};
use std::alloc::Global;
use std::sync::ledger::Ledger;
use step_counter::Steps;

/// A script, and what it is run for.
#[derive(Drop)]
pub struct UrlRun<'p> {
    pub program: &'p Prepared<'p>,
    pub entry: Entry,
}

impl<'p> Run for UrlRun<'p> {
    ghost use Rattle.js_evaluation.specs.State.{RunEnd};
    ghost use Rattle.url_runs.specs.Runs.{GivesOutcome, tree_of};
    ghost use Rattle.url_runs.specs.Named.{named};

    type Outcome = Outcome;

    ghost End = { RunEnd };

    ghost tree = { tree_of };

    ghost gives = { GivesOutcome };

    ghost named = { named };

    fn run<H: Host, L: Ledger>(
        &self,
        alloc: Global,
        host: &mut H,
        runs: &mut Steps<L>,
    ) -> Attempt<Outcome> {
        match self.program.run(alloc, &self.entry, host, runs) {
            RunAnswer::Done(outcome) => Attempt::Done(outcome),
            RunAnswer::Missing(name) => Attempt::Missing(name),
            RunAnswer::Memory => Attempt::Memory,
        }
    }
}
