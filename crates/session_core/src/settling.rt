// One run, and what is asked for it.
ghost use Rattle.std.specs.Prelude.{◌≡◌, ℕ, ◌+◌, IfOk, List, OnErr};
ghost use Rattle.poll_loop.specs.Numbers.{GaveAll};
ghost use Rattle.session_core.specs.Settling.{Settles, Awaits};

use crate::lookups::Lookups;
use crate::{Attempt, Progress, Run};
use pac_names::LookupName;
use pac_ports::Dice;
use poll_log::Question;
use std::alloc::Global;
use std::sync::ledger::Ledger;
use step_counter::Steps;
use stub_poller::Stub;
use tracing_host::TracingHost;
use utf16_text::Memory;

/// What has become of a run, and the question that is asked for it, if one is.
#[derive(Drop)]
pub(crate) struct Settled<O> {
    pub(crate) progress: Progress<O>,
    pub(crate) asked: Option<Question>,
}

/// Runs once, over what was told. A name that is missed is asked, unless it was asked before.
pub(crate) fn settle<R: Run, D: Dice, L: Ledger>(
    alloc: Global,
    run: &R,
    lookups: &mut Lookups,
    dice: &mut D,
    runs: &mut Steps<L>,
) -> Result<Settled<R::Outcome>, Memory>
    ensures ok { IfOk result (λ settled. Settles R.gives (R.tree run.now) lookups.old lookups.new
        (D.told dice.old) (D.told dice.new) settled) }
    ensures memory { OnErr result ((more : List ℕ) × GaveAll (D.told dice.old) more (D.told dice.new)) }
    ensures ran { runs.new ≡ runs.old + 1 }
{
    let mut host = TracingHost::new(alloc, &lookups.table);
    match run.run(alloc, &mut host, runs) {
        Attempt::Done(outcome) => Ok(Settled {
            progress: Progress::Finished(outcome),
            asked: None,
        }),
        Attempt::Missing(name) => await_name(alloc, name, &mut lookups.stub, dice),
        Attempt::Memory => Err(Memory),
    }
}

// Waits for the name, which is asked if the stub doesn't know it; unless it is dead.
fn await_name<O, D: Dice>(
    alloc: Global,
    name: LookupName,
    stub: &mut Stub,
    dice: &mut D,
) -> Result<Settled<O>, Memory>
    ensures ok { IfOk result (λ settled. Awaits name stub.old stub.new (D.told dice.old) (D.told dice.new) settled) }
    ensures memory { OnErr result ((more : List ℕ) × GaveAll (D.told dice.old) more (D.told dice.new)) }
{
    if stub.is_dead(&name) {
        return Ok(Settled {
            progress: Progress::Unanswered(name),
            asked: None,
        });
    }
    if stub.in_flight(&name) {
        return Ok(Settled {
            progress: Progress::Waiting(name),
            asked: None,
        });
    }
    let question = stub.ask(alloc, name.copy(), dice.id())?;
    Ok(Settled {
        progress: Progress::Waiting(name),
        asked: Some(question),
    })
}
