// What polls.
ghost use Rattle.std.specs.Prelude.{◌≡◌, not, map, IfOk, OnErr, OnOk};
ghost use Rattle.poll_log.specs.Turns.{Turns};
ghost use Rattle.poll_log.specs.Questions.{outgoing_of};
ghost use Rattle.poll_log.specs.Jobs.{some_wait};
ghost use Rattle.poll_log.specs.Moment.{flights_of};
ghost use Rattle.poll_log.specs.Streamed.{truncated_in};
ghost use Rattle.poll_loop.specs.Task.{Task};
ghost use Rattle.poll_loop.specs.Events.{event_of};
ghost use Rattle.poll_loop.specs.Steps.{Stepped, StepFails};

use crate::Event;
use pac_ports::Dice;
use poll_log::{Question, Sending};
use std::alloc::Global;
use std::sync::ledger::Ledger;
use step_counter::Steps;
use utf16_text::Memory;

/// Jobs that wait for names, driven by what comes over a link.
pub trait Poller {
    /// It stands for a log of this task.
    ghost stands: { Self → Task → Turns → Type 0 };

    /// What it keeps, whatever it treats.
    ghost Kept: { Type 0 };

    ghost kept: { Self → Kept };

    /// Whether no job waits.
    fn ended(&self) -> bool
        ensures { (task : Task) (turns : Turns) → stands self.now task turns →
            result ≡ not (some_wait task.terms task.jobs turns) };

    /// The question in flight to which the datagram is the truncated response, if it is one to any.
    fn truncated(&self, datagram: &[u8]) -> Option<Question>
        ensures { (task : Task) (turns : Turns) → stands self.now task turns →
            result ≡ truncated_in (flights_of task.terms turns) datagram.now };

    /// Treats one event whole, and gives what is to be sent after it. From then on it stands for the longer log.
    fn step<D: Dice, L: Ledger>(
        &mut self,
        alloc: Global,
        event: Event<'_>,
        dice: &mut D,
        runs: &mut Steps<L>,
    ) -> Result<Vec<Sending>, Memory>
        ensures ok { IfOk result (λ sent. (task : Task) (turns : Turns) → stands self.old task turns →
            Stepped (stands self.new task) task turns (event_of event.entry) (map outgoing_of sent.items)
            (D.told dice.old) (D.told dice.new) runs.old runs.new) }
        ensures memory { OnErr result ((task : Task) (turns : Turns) → stands self.old task turns →
            StepFails task turns (event_of event.entry) (D.told dice.old) (D.told dice.new) runs.old runs.new) }
        ensures kept { OnOk result (kept self.new ≡ kept self.old) };
}
