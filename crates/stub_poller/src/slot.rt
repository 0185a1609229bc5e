// One place in the order of asking.
ghost use Rattle.std.specs.Prelude.{◌≡◌};
ghost use Rattle.stub_poller.specs.Slots.{IsLow, cut_here, flies, named_here, number_of, older_here, replied, young_here};

use dns_message::{read_reply, truncated};
use pac_names::{Answer, LookupName};
use poll_log::{Flight, Question};

/// A question in flight, or the number of one that has left.
#[derive(Drop)]
pub(crate) enum Slot {
    Flying(Flight),
    Left(u16),
}

impl Slot {
    /// The number that was drawn for the question.
    pub(crate) fn number(&self) -> u16
        ensures { result ≡ number_of self.now }
    {
        match self {
            Slot::Flying(flight) => flight.question.id,
            Slot::Left(number) => *number,
        }
    }

    /// Whether the question is in flight.
    pub(crate) fn flies(&self) -> bool
        ensures { result ≡ flies self.now }
    {
        matches!(self, Slot::Flying(_))
    }

    /// The name and the answer, where the datagram is a reply to what flies here.
    pub(crate) fn answered(&self, datagram: &[u8]) -> Option<(LookupName, Answer)>
        ensures { result ≡ replied datagram.now self.now }
    {
        let Slot::Flying(flight) = self else {
            return None;
        };
        let question = &flight.question;
        match read_reply(datagram, question.id, &question.name) {
            Some(answer) => Some((question.name.copy(), answer)),
            None => None,
        }
    }

    /// The question that flies here, where the datagram is its truncated response.
    pub(crate) fn cut(&self, datagram: &[u8]) -> Option<Question>
        ensures { result ≡ cut_here datagram.now self.now }
    {
        let Slot::Flying(flight) = self else {
            return None;
        };
        let question = &flight.question;
        if truncated(datagram, question.id, &question.name) {
            Some(question.copy())
        } else {
            None
        }
    }

    /// One beat more.
    pub(crate) fn grow_older(&mut self)
        requires { IsLow self.old }
        ensures { self.new ≡ older_here self.old }
    {
        if let Slot::Flying(flight) = self {
            flight.age += 1;
        }
    }

    /// A question at the limit leaves.
    pub(crate) fn leave_if_over(&mut self, limit: u32)
        ensures { self.new ≡ young_here limit self.old }
    {
        if let Slot::Flying(flight) = self {
            if flight.age >= limit {
                let number = flight.question.id;
                *self = Slot::Left(number);
            }
        }
    }

    /// Whether a question for the name flies here.
    pub(crate) fn has_name(&self, name: &LookupName) -> bool
        ensures { result ≡ named_here name.now self.now }
    {
        match self {
            Slot::Flying(flight) => flight.question.name == *name,
            Slot::Left(_) => false,
        }
    }
}
