// The stub.
ghost use Rattle.std.specs.Prelude.{◌≡◌, ◌+◌, ◌<◌, ◌≤◌, ◌^◌, IfOk, OnErr, OnOk, vec_capacity};
ghost use Rattle.std.specs.Borrow.{sem};
ghost use Rattle.poll_log.specs.declared.terms.TheConstants.{MOST_TRIES, MOST_WAIT};
ghost use Rattle.poll_log.specs.Streamed.{truncated_in};
ghost use Rattle.stub_poller.specs.State.{answered_by, asking, dying, flies_in, given, is_dead_in, new_stub, resent};

use crate::flights::Flights;
use crate::report::{BeatReport, add_names, list_deaths, list_resends};
use pac_names::{Answer, LookupName};
use poll_log::{Question, Terms};
use std::alloc::Global;
use std::marker::Model;
use utf16_text::Memory;

/// The questions in flight, each with its age, and the names that are dead. It keeps room for the report of every beat
/// to come, so that only asking takes memory.
#[derive(Drop)]
pub struct Stub {
    terms: Terms,
    flights: Flights,
    dead: Vec<LookupName>,
    report: BeatReport,
}

impl Model for Stub {
    ghost use Rattle.stub_poller.specs.State.{StubState};

    ghost Value = { StubState };

    ghost use Rattle.stub_poller.specs.Ready.{IsReady};

    ghost view = { λ s. record { terms = s.terms; flights = s.flights; dead = s.dead.items } };

    ghost invariant = { IsReady };
}

impl Stub {
    ghost use Rattle.stub_poller.specs.Lending.{EndsBeaten};

    /// A stub that sends each question `tries` times, to the first server and the second one in turn. The second time
    /// comes `wait` beats after the first, and from each time to the next it is twice as long as before. A question is
    /// given up when one time more would come. It takes no memory.
    pub fn new(alloc: Global, wait: u32, tries: u32) -> Stub
        requires waits { 0 < wait }
        requires wait { wait ≤ MOST_WAIT }
        requires tried { 0 < tries }
        requires tries { tries ≤ MOST_TRIES }
        ensures { result ≡ new_stub (record { wait = wait; tries = tries }) }
    {
        Stub {
            terms: Terms { wait, tries },
            flights: Flights::new(alloc),
            dead: Vec::new(alloc),
            report: BeatReport {
                resend: Vec::new(alloc),
                dead: Vec::new(alloc),
            },
        }
    }

    /// Takes the question for a name into flight, and gives it, to be sent to the first server now.
    pub fn ask(&mut self, alloc: Global, name: LookupName, id: u16) -> Result<Question, Memory>
        ensures question { IfOk result (λ q. q ≡ record { id = id; name = name }) }
        ensures asked { OnOk result (self.new ≡ asking (record { id = id; name = name }) self.old) }
        ensures unchanged { OnErr result (self.new ≡ self.old) }
    {
        let flights = self.flights.slots().len();
        make_room(&mut self.report, flights)?;
        self.dead.reserve(flights + 1)?;
        let question = Question {
            id,
            name: name.copy(),
        };
        self.flights.push(alloc, question)?;
        Ok(Question { id, name })
    }

    /// The name in flight to which the datagram is a reply, and the answer; the name is no longer in flight. Nothing
    /// where the datagram is a reply to no question in flight.
    pub fn on_datagram(&mut self, datagram: &[u8]) -> Option<(LookupName, Answer)>
        ensures answer { result ≡ answered_by datagram.now self.old.flights }
        ensures taken { self.new ≡ given datagram.now self.old }
    {
        self.flights.take_answered(datagram)
    }

    /// The question in flight to which the datagram is the truncated response, the first where it is one to more.
    /// Nothing where it is one to no question in flight.
    pub fn truncated(&self, datagram: &[u8]) -> Option<Question>
        ensures { result ≡ truncated_in self.now.flights datagram.now }
    {
        self.flights.truncated(datagram)
    }

    /// Counts a beat, and gives what is to be sent again and what is dead.
    pub fn on_beat(&mut self) -> &BeatReport
        ensures* after { sem 𝓛 (EndsBeaten self.entry) }
        ensures resend { result.now.resend.items ≡ resent self.old }
        ensures dead { result.now.dead.items ≡ dying self.old }
    {
        let limit = self.terms.limit();
        self.flights.grow_older();
        list_resends(&mut self.report.resend, self.flights.slots(), self.terms);
        list_deaths(&mut self.report.dead, self.flights.slots(), limit);
        add_names(&mut self.dead, &self.report.dead);
        self.flights.keep_young(limit);
        &self.report
    }

    /// Whether a question for the name is in flight.
    pub fn in_flight(&self, name: &LookupName) -> bool
        ensures { result ≡ flies_in name.now self.now }
    {
        self.flights.has_name(name)
    }

    /// Whether the name was given up.
    pub fn is_dead(&self, name: &LookupName) -> bool
        ensures { result ≡ is_dead_in name.now self.now }
    {
        self.dead.iter().any(|dead| *dead == *name)
    }
}

// Room in both lists of a report for one item more than so many. What they held is gone.
fn make_room(report: &mut BeatReport, flights: usize) -> Result<(), Memory>
    requires { flights < 2 ^ 63 }
    ensures resend { OnOk result (flights < vec_capacity report.new.resend) }
    ensures dead { OnOk result (flights < vec_capacity report.new.dead) }
    ensures kept_resend { vec_capacity report.old.resend ≤ vec_capacity report.new.resend }
    ensures kept_dead { vec_capacity report.old.dead ≤ vec_capacity report.new.dead }
{
    report.resend.clear();
    report.dead.clear();
    report.resend.reserve(flights + 1)?;
    report.dead.reserve(flights + 1)?;
    Ok(())
}
