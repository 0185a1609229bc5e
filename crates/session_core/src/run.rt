// The run of one session.
ghost use Rattle.std.specs.Prelude.{◌≡◌, ℕ, ◌+◌, List};
ghost use Rattle.js_host.specs.Answers.{Knowledge};
ghost use Rattle.js_host.specs.Seen.{fresh};
ghost use Rattle.run_trees.specs.RunTree.{RunTree};
ghost use Rattle.poll_loop.specs.Task.{AsksLookupNames};
ghost use Rattle.session_log.specs.Asked.{job_of};
ghost use Rattle.session_core.specs.Answers.{Answers};

use js_host::Host;
use pac_names::LookupName;
use std::alloc::Global;
use std::sync::ledger::Ledger;
use step_counter::Steps;

/// What a run over a host comes to.
#[derive(Drop)]
pub enum Attempt<O> {
    /// The host knew each name that it asked.
    Done(O),
    /// The first name that the host doesn't know.
    Missing(LookupName),
    Memory,
}

/// A script with all that it is run for.
pub trait Run: Drop {
    /// What a whole run gives.
    type Outcome: Drop;

    /// How a run ends.
    ghost End: { Type 0 };

    /// The run, as a tree of what it asks of its host.
    ghost tree: { Self → RunTree End };

    /// The outcome is that of a run which ends so, and of whose alerts these are kept.
    ghost gives: { Self.Outcome → End → List (List ℕ) → Type 0 };

    /// Runs once, from the beginning, over a host that was asked nothing yet. Missing comes exactly where the host
    /// lacks a name of the whole run, with the first such name. One run is counted, whatever the answer.
    fn run<H: Host, L: Ledger>(
        &self,
        alloc: Global,
        host: &mut H,
        runs: &mut Steps<L>,
    ) -> Attempt<Self::Outcome>
        ensures answer { (known : Knowledge) → H.seen host.old ≡ fresh known →
            Answers gives (tree self.now) known result (H.seen host.new) }
        ensures counted { runs.new ≡ runs.old + 1 };

    /// A run asks for lookup names alone.
    ghost named: { (run : Self) → AsksLookupNames (job_of (tree run)) };
}
