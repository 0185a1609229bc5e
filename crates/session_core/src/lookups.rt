// What is known of names.
ghost use Rattle.std.specs.Prelude.{◌≡◌, IfOk, OnOk};
ghost use Rattle.poll_log.specs.Sendings.{AreTerms};
ghost use Rattle.poll_log.specs.Streamed.{truncated_in};
ghost use Rattle.poll_loop.specs.Events.{event_of};
ghost use Rattle.session_core.specs.Lookups.{found_at, hearing, new_lookups, told_name, with_answer};

use answer_table::AnswerTable;
use pac_names::{Answer, LookupName};
use poll_log::{Question, Terms};
use poll_loop::{BeatCounter, Event};
use std::alloc::Global;
use stub_poller::Stub;
use utf16_text::Memory;

/// What is known of names: the answers that were told, the questions in flight and the dead names, and the datagrams
/// that count towards the next beat.
#[derive(Drop)]
pub(crate) struct Lookups {
    pub(crate) table: AnswerTable,
    pub(crate) stub: Stub,
    pub(crate) beats: BeatCounter,
}

impl Lookups {
    /// Nothing was asked, and nothing came. It takes no memory.
    pub(crate) fn new(alloc: Global, terms: Terms) -> Lookups
        requires { AreTerms terms }
        ensures { result ≡ new_lookups terms }
    {
        Lookups {
            table: AnswerTable::new(alloc),
            stub: Stub::new(alloc, terms.wait, terms.tries),
            beats: BeatCounter::new(),
        }
    }

    /// The question in flight to which the datagram is the truncated response, if it is one to any.
    pub(crate) fn truncated(&self, datagram: &[u8]) -> Option<Question>
        ensures { result ≡ truncated_in self.now.stub.flights datagram.now }
    {
        self.stub.truncated(datagram)
    }

    /// Takes the answer that an event gives, if it gives one, and says for which name.
    pub(crate) fn hear(
        &mut self,
        alloc: Global,
        event: Event<'_>,
    ) -> Result<Option<LookupName>, Memory>
        ensures told { IfOk result (λ told. told ≡ told_name (found_at (event_of event.entry) self.old.stub)) }
        ensures heard { OnOk result (self.new ≡ hearing (event_of event.entry) self.old) }
    {
        let Event::Datagram(datagram) = event else {
            return Ok(None);
        };
        let Some((name, answer)) = self.stub.on_datagram(datagram) else {
            return Ok(None);
        };
        tell(alloc, &mut self.table, name.copy(), answer)?;
        Ok(Some(name))
    }
}

// Puts an answer into the table; a name that has one keeps it.
fn tell(
    alloc: Global,
    table: &mut AnswerTable,
    name: LookupName,
    answer: Answer,
) -> Result<(), Memory>
    ensures { OnOk result (table.new ≡ with_answer name answer table.old) }
{
    if table.get(&name).is_some() {
        return Ok(());
    }
    table.insert(alloc, name, answer)
}
