// What an event does.
ghost use Rattle.std.specs.Prelude.{◌≡◌, IfOk, OnErr, OnOk, map};
ghost use Rattle.poll_log.specs.Turns.{Turns};
ghost use Rattle.poll_log.specs.Questions.{outgoing_of};
ghost use Rattle.poll_loop.specs.Events.{event_of};
ghost use Rattle.poll_loop.specs.Steps.{Stepped, StepFails};
ghost use Rattle.poll_loop.specs.Task.{Task};
ghost use Rattle.session_core.specs.Stands.{Stands};
ghost use Rattle.session_core.specs.Waiting.{IsKept};

use crate::Run;
use crate::asking::first_sendings;
use crate::beats::take_beat;
use crate::cascade::rerun;
use crate::lookups::Lookups;
use crate::roster::Roster;
use pac_ports::Dice;
use poll_log::Sending;
use poll_loop::Event;
use std::alloc::Global;
use std::sync::ledger::Ledger;
use step_counter::Steps;
use utf16_text::Memory;

/// Treats one event whole: first what it answers, then the beat, if it is one. What is to be sent is given.
pub(crate) fn take_event<R: Run, D: Dice, L: Ledger>(
    alloc: Global,
    event: Event<'_>,
    roster: &mut Roster<R, R::Outcome>,
    lookups: &mut Lookups,
    dice: &mut D,
    runs: &mut Steps<L>,
) -> Result<Vec<Sending>, Memory>
    requires { IsKept roster.old }
    ensures ok { IfOk result (λ sent. (task : Task) (turns : Turns) →
        Stands R.gives R.tree roster.old.all.items lookups.old task turns →
        Stepped (Stands R.gives R.tree roster.new.all.items lookups.new task)
        task turns (event_of event.entry) (map outgoing_of sent.items)
        (D.told dice.old) (D.told dice.new) runs.old runs.new) }
    ensures memory { OnErr result ((task : Task) (turns : Turns) →
        Stands R.gives R.tree roster.old.all.items lookups.old task turns →
        StepFails task turns (event_of event.entry) (D.told dice.old) (D.told dice.new) runs.old runs.new) }
    ensures waiting { OnOk result (IsKept roster.new) }
    ensures kept { OnOk result (map (λ s. s.run) roster.new.all.items ≡ map (λ s. s.run) roster.old.all.items) }
{
    let told = lookups.hear(alloc, event)?;
    let asked = rerun(alloc, roster, told, lookups, dice, runs)?;
    let mut sent = first_sendings(alloc, asked)?;
    if !lookups.beats.count(event) {
        return Ok(sent);
    }
    let mut again = take_beat(alloc, roster, &mut lookups.stub)?;
    sent.append(&mut again)?;
    Ok(sent)
}
