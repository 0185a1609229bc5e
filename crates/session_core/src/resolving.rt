// All sessions, over a link.
ghost use Rattle.std.specs.Prelude.{◌≡◌, Err, IfOk, List};
ghost use Rattle.pac_plan.specs.Plan.{Outside, around, whole, faulted, unfinished};
ghost use Rattle.pac_ports.specs.declared.link.Move.{Move};
ghost use Rattle.poll_log.specs.Sendings.{AreTerms};
ghost use Rattle.poll_log.specs.Turns.{turns_of};
ghost use Rattle.poll_loop.specs.Talks.{Talked};
ghost use Rattle.session_core.specs.Beginning.{run_jobs};
ghost use Rattle.session_core.specs.Resolved.{AllEnded, talk_of};

use crate::{Core, Run, Session};
use pac_ports::{Dice, Link};
use poll_loop::{PollError, Upstream, poll};
use std::alloc::Global;
use std::sync::ledger::Ledger;
use step_counter::Steps;

/// Runs all, asks for the names that they miss, and runs again what waited for an answer, until no session waits.
/// The sessions come in the order of the runs.
pub fn run_all<R: Run, N: Link, D: Dice, L: Ledger>(
    alloc: Global,
    all: Vec<R>,
    upstream: Upstream,
    link: &mut N,
    dice: &mut D,
    runs: &mut Steps<L>,
) -> Result<Vec<Session<R, R::Outcome>>, PollError>
    requires { AreTerms upstream.terms }
    // The log is polled, and the session of each run has ended by it.
    ensures ok { IfOk result (λ sessions. (old : Outside) →
        old.link ≡ N.state link.old → old.dice ≡ D.told dice.old → old.runs ≡ runs.old →
        (log : List Move) × Talked (talk_of upstream (run_jobs R.tree all.items)) old whole log
        (around old (N.state link.new) (D.told dice.new) runs.new)
        × AllEnded R.gives R.tree all.items upstream.terms (turns_of log) sessions.items) }
    // The link failed, and the log is cut short.
    ensures fault { result ≡ Err PollError.Link → (old : Outside) →
        old.link ≡ N.state link.old → old.dice ≡ D.told dice.old → old.runs ≡ runs.old →
        (log : List Move) × Talked (talk_of upstream (run_jobs R.tree all.items)) old faulted log
        (around old (N.state link.new) (D.told dice.new) runs.new) }
    ensures memory { result ≡ Err PollError.Memory → (old : Outside) →
        old.link ≡ N.state link.old → old.dice ≡ D.told dice.old → old.runs ≡ runs.old →
        (log : List Move) × Talked (talk_of upstream (run_jobs R.tree all.items)) old unfinished log
        (around old (N.state link.new) (D.told dice.new) runs.new) }
{
    let Ok(begun) = Core::start(alloc, all, upstream.terms, dice, runs) else {
        return Err(PollError::Memory);
    };
    let (mut core, first) = begun;
    match poll(alloc, &mut core, &first, upstream, link, dice, runs) {
        Ok(()) => Ok(core.sessions.roster.all),
        Err(PollError::Link) => Err(PollError::Link),
        Err(PollError::Memory) => Err(PollError::Memory),
    }
}
