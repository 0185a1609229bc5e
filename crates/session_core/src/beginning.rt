// The first run of each session.
ghost use Rattle.std.specs.Prelude.{◌≡◌, ℕ, ◌+◌, ◌≤◌, IfOk, List, OnErr, OnOk, length};
ghost use Rattle.poll_loop.specs.Numbers.{GaveAll};
ghost use Rattle.session_core.specs.Beginning.{Begins};
ghost use Rattle.session_core.specs.Waiting.{IsKept};

use crate::asking::push_asked;
use crate::lookups::Lookups;
use crate::roster::Roster;
use crate::settling::settle;
use crate::waiting::{Waiting, note};
use crate::{Run, Session};
use pac_ports::Dice;
use poll_log::Question;
use std::alloc::Global;
use std::sync::ledger::Ledger;
use step_counter::Steps;
use utf16_text::Memory;

/// Sessions that have begun, and what their runs ask.
#[derive(Drop)]
pub(crate) struct Begun<R, O> {
    pub(crate) roster: Roster<R, O>,
    pub(crate) asked: Vec<Question>,
}

/// Runs each for the first time, in their order.
pub(crate) fn begin<R: Run, D: Dice, L: Ledger>(
    alloc: Global,
    all: Vec<R>,
    lookups: &mut Lookups,
    dice: &mut D,
    runs: &mut Steps<L>,
) -> Result<Begun<R, R::Outcome>, Memory>
    ensures ok { IfOk result (λ begun. Begins R.gives R.tree all.items lookups.old lookups.new
        (D.told dice.old) (D.told dice.new) begun.roster.all.items begun.asked.items) }
    ensures kept { IfOk result (λ begun. IsKept begun.roster) }
    ensures memory { OnErr result ((more : List ℕ) × GaveAll (D.told dice.old) more (D.told dice.new)) }
    ensures ran { OnOk result (runs.new ≡ runs.old + length all.items) }
    ensures most { runs.new ≤ runs.old + length all.items }
{
    let mut sessions = Vec::new(alloc);
    let mut waiting = Waiting::new(alloc);
    let mut asked = Vec::new(alloc);
    for run in all {
        let settled = settle(alloc, &run, lookups, dice, runs)?;
        push_asked(&mut asked, settled.asked)?;
        note(alloc, &mut waiting, &settled.progress, sessions.len())?;
        sessions.push(Session {
            run,
            progress: settled.progress,
            runs: 1,
        })?;
    }
    let roster = Roster {
        all: sessions,
        waiting,
    };
    Ok(Begun { roster, asked })
}
