// Many sessions, as a poller.
ghost use Rattle.std.specs.Prelude.{◌≡◌, IfOk, IsErr, OnErr, OnOk, map, true};
ghost use Rattle.poll_log.specs.Turns.{Turns};
ghost use Rattle.poll_log.specs.Questions.{outgoing_of};
ghost use Rattle.poll_loop.specs.Events.{event_of};
ghost use Rattle.poll_loop.specs.Steps.{Stepped, StepFails};
ghost use Rattle.poll_loop.specs.Task.{Task};
ghost use Rattle.session_core.specs.Stands.{StandsFor, is_broken, its_runs};

use crate::asking::first_sendings;
use crate::beginning::{Begun, begin};
use crate::events::take_event;
use crate::keeping::Keeping;
use crate::lookups::Lookups;
use crate::session::{outcome_of, without_outcome};
use crate::{Run, SessionState};
use pac_ports::Dice;
use poll_log::{Question, Sending, Terms};
use poll_loop::{Event, Poller};
use std::alloc::Global;
use std::sync::ledger::Ledger;
use step_counter::Steps;
use utf16_text::Memory;

/// Many runs, and what is known of the names that they ask.
#[derive(Drop)]
pub struct Core<R: Run> {
    pub(crate) sessions: Keeping<R, R::Outcome>,
    lookups: Lookups,
}

impl<R: Run> Core<R> {
    ghost use Rattle.std.specs.Prelude.{ℕ, ◌+◌, ◌<◌, ◌≤◌, IfSome, List, None, get_or, length};
    ghost use Rattle.pac_plan.specs.Plan.{Outside};
    ghost use Rattle.poll_log.specs.Sendings.{AreTerms};
    ghost use Rattle.poll_log.specs.Told.{told};
    ghost use Rattle.poll_log.specs.Jobs.{IsFinished, Job, runs_of};
    ghost use Rattle.poll_loop.specs.Numbers.{GaveAll};
    ghost use Rattle.poll_loop.specs.Steps.{Began};
    ghost use Rattle.session_core.specs.Beginning.{run_jobs};
    ghost use Rattle.session_core.specs.Ends.{IsState};
    ghost use Rattle.session_core.specs.Sessions.{IsOutcome};
    ghost use Rattle.session_core.specs.Stands.{sessions_of, task_of};

    /// Runs each for the first time, in their order, and gives what is to be sent before the first event.
    pub fn start<D: Dice, L: Ledger>(
        alloc: Global,
        all: Vec<R>,
        terms: Terms,
        dice: &mut D,
        runs: &mut Steps<L>,
    ) -> Result<(Core<R>, Vec<Sending>), Memory>
        requires { AreTerms terms }
        ensures ok { IfOk result (λ begun. (old : Outside) → old.dice ≡ D.told dice.old → old.runs ≡ runs.old →
            Began (StandsFor R.gives R.tree begun.0 (task_of terms (run_jobs R.tree all.items)))
            (task_of terms (run_jobs R.tree all.items)) (map outgoing_of begun.1.items) old (D.told dice.new) runs.new) }
        ensures sessions { IfOk result (λ begun. its_runs begun.0 ≡ all.items) }
        ensures memory { OnErr result ((more : List ℕ) × GaveAll (D.told dice.old) more (D.told dice.new)) }
        ensures most { runs.new ≤ runs.old + length all.items }
    {
        let mut lookups = Lookups::new(alloc, terms);
        let begun = begin(alloc, all, &mut lookups, dice, runs)?;
        let Begun { roster, asked } = begun;
        let sent = first_sendings(alloc, asked)?;
        let sessions = Keeping {
            roster,
            broken: false,
        };
        let core = Core { sessions, lookups };
        Ok((core, sent))
    }

    /// What has become of a session.
    pub fn state(&self, k: usize) -> SessionState
        requires { k < length (sessions_of self.now) }
        ensures { (task : Task) (turns : Turns) (job : Job) → StandsFor R.gives R.tree self.now task turns →
            IsState task.terms turns (get_or task.jobs k job) result }
    {
        without_outcome(&self.sessions.roster.all[k].progress)
    }

    /// The outcome of a session: that of the uninterrupted run against every map that holds what is told. There is none
    /// exactly where the session isn't finished.
    pub fn outcome(&self, k: usize) -> Option<&R::Outcome>
        requires { k < length (sessions_of self.now) }
        ensures none { result ≡ None → (task : Task) (turns : Turns) (job : Job) →
            StandsFor R.gives R.tree self.now task turns → IsFinished task.terms turns (get_or task.jobs k job) → ⊥ }
        ensures some { IfSome result (λ outcome. (task : Task) (turns : Turns) (job : Job) (run : R) →
            StandsFor R.gives R.tree self.now task turns →
            IsFinished task.terms turns (get_or task.jobs k job)
            × IsOutcome R.gives (R.tree (get_or (its_runs self.now) k run)) (told task.terms turns) outcome.now) }
    {
        outcome_of(&self.sessions.roster.all[k].progress)
    }

    /// How often a session was run.
    pub fn runs_of(&self, k: usize) -> u64
        requires { k < length (sessions_of self.now) }
        ensures { (task : Task) (turns : Turns) (job : Job) → StandsFor R.gives R.tree self.now task turns →
            result ≡ runs_of task.terms turns (get_or task.jobs k job) }
    {
        self.sessions.roster.all[k].runs
    }
}

impl<R: Run> Poller for Core<R> {
    ghost use Rattle.std.specs.Prelude.{List};

    ghost stands = { StandsFor R.gives R.tree };

    ghost Kept = { List R };

    ghost kept = { its_runs };

    fn ended(&self) -> bool {
        self.sessions.roster.waiting.is_empty()
    }

    fn truncated(&self, datagram: &[u8]) -> Option<Question> {
        self.lookups.truncated(datagram)
    }

    fn step<D: Dice, L: Ledger>(
        &mut self,
        alloc: Global,
        event: Event<'_>,
        dice: &mut D,
        runs: &mut Steps<L>,
    ) -> Result<Vec<Sending>, Memory>
        ensures ok { IfOk result (λ sent. (task : Task) (turns : Turns) → StandsFor R.gives R.tree self.old task turns →
            Stepped (StandsFor R.gives R.tree self.new task) task turns (event_of event.entry) (map outgoing_of sent.items)
            (D.told dice.old) (D.told dice.new) runs.old runs.new) }
        ensures memory { OnErr result ((task : Task) (turns : Turns) → StandsFor R.gives R.tree self.old task turns →
            StepFails task turns (event_of event.entry) (D.told dice.old) (D.told dice.new) runs.old runs.new) }
        // Each session goes on with its run.
        ensures kept { OnOk result (its_runs self.new ≡ its_runs self.old) }
        // Once memory ran out each later step says so, and changes nothing.
        ensures broken { OnErr result (is_broken self.new ≡ true) }
        ensures after { is_broken self.old ≡ true → IsErr result }
        ensures still { is_broken self.old ≡ true → self.new ≡ self.old }
        ensures undrawn { is_broken self.old ≡ true → dice.new ≡ dice.old }
        ensures unrun { is_broken self.old ≡ true → runs.new ≡ runs.old }
    {
        if self.sessions.broken {
            return Err(Memory);
        }
        self.sessions.broken = true;
        let sent = take_event(
            alloc,
            event,
            &mut self.sessions.roster,
            &mut self.lookups,
            dice,
            runs,
        )?;
        self.sessions.broken = false;
        Ok(sent)
    }
}
