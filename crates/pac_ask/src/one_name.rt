// One name that is waited for.
ghost use Rattle.std.specs.Prelude.{◌≡◌, IfOk, IsTrue, OnErr, OnOk};
ghost use Rattle.pac_names.specs.Names.{is_lookup_name};
ghost use Rattle.poll_log.specs.Questions.{IsQuestion, first_sending};
ghost use Rattle.poll_log.specs.Sendings.{AreTerms};
ghost use Rattle.poll_loop.specs.Events.{event_of};
ghost use Rattle.stub_poller.specs.State.{beaten, resent};
ghost use Rattle.pac_ask.specs.OneName.{hearing, new_one, received};

use pac_names::{Answer, LookupName};
use pac_ports::Dice;
use poll_log::{Question, Sending, Terms};
use poll_loop::{BeatCounter, Event, Poller};
use std::alloc::Global;
use std::sync::ledger::Ledger;
use step_counter::Steps;
use stub_poller::Stub;
use utf16_text::Memory;

/// One name that is waited for: its question in flight, or its answer.
#[derive(Drop)]
pub(crate) struct OneName {
    pub(crate) name: LookupName,
    pub(crate) answer: Option<Answer>,
    terms: Terms,
    stub: Stub,
    beats: BeatCounter,
}

impl OneName {
    /// Waits for the name, and gives the first sending of its question.
    pub(crate) fn start(
        alloc: Global,
        name: LookupName,
        terms: Terms,
        id: u16,
    ) -> Result<(OneName, Sending), Memory>
        requires terms { AreTerms terms }
        ensures one { IfOk result (λ begun. begun.0 ≡ new_one terms (record { id = id; name = name })) }
        ensures sending { IfOk result (λ begun. begun.1 ≡ first_sending (record { id = id; name = name })) }
        ensures proper { IfOk result (λ begun. IsQuestion begun.1.question) }
        ensures named { OnErr result (IsTrue (is_lookup_name name)) }
    {
        let mut stub = Stub::new(alloc, terms.wait, terms.tries);
        let beats = BeatCounter::new();
        let question = stub.ask(alloc, name.copy(), id)?;
        let one = OneName {
            name,
            answer: None,
            terms,
            stub,
            beats,
        };
        Ok((one, Sending::first(question)))
    }

    // Takes the answer that the datagram gives, where it gives one.
    fn receive(&mut self, datagram: &[u8])
        ensures { self.new ≡ received datagram.now self.old }
    {
        if let Some((_, answer)) = self.stub.on_datagram(datagram) {
            self.answer = Some(answer);
        }
    }

    // Hears an event.
    fn hear(&mut self, event: Event<'_>)
        ensures { self.new ≡ hearing (event_of event.entry) self.old }
    {
        match event {
            Event::Datagram(datagram) => self.receive(datagram),
            Event::Tick => {}
        }
    }

    // A beat: what is sent again.
    fn beat(&mut self, alloc: Global) -> Result<Vec<Sending>, Memory>
        ensures again { IfOk result (λ again. again.items ≡ resent self.old.stub) }
        ensures kept { OnOk result (self.new ≡ record self.old { stub = beaten self.old.stub }) }
    {
        self.stub.on_beat().resends(alloc)
    }
}

impl Poller for OneName {
    ghost use Rattle.pac_ask.specs.OneName.{StandsFor};

    ghost stands = { λ one task turns. StandsFor one task turns };

    ghost Kept = { Unit {0} };

    ghost kept = { λ one. tt };

    fn ended(&self) -> bool {
        self.answer.is_some() || self.stub.is_dead(&self.name)
    }

    fn truncated(&self, datagram: &[u8]) -> Option<Question> {
        self.stub.truncated(datagram)
    }

    fn step<D: Dice, L: Ledger>(
        &mut self,
        alloc: Global,
        event: Event<'_>,
        _dice: &mut D,
        _runs: &mut Steps<L>,
    ) -> Result<Vec<Sending>, Memory> {
        self.hear(event);
        if !self.beats.count(event) {
            return Ok(Vec::new(alloc));
        }
        let again = self.beat(alloc)?;
        Ok(again)
    }
}
