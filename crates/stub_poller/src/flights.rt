// The questions in flight.
ghost use Rattle.std.specs.Prelude.{◌≡◌, ◌∷◌, ◌++◌, ◌<◌, ◌^◌, [], OnErr, OnOk, filter, map};
ghost use Rattle.std.specs.List.{All, list_any};
ghost use Rattle.pac_names.specs.Comparing.{same_name};
ghost use Rattle.poll_log.specs.Streamed.{truncated_in};
ghost use Rattle.stub_poller.specs.State.{aged, answered_by, is_young, unanswered_by};
ghost use Rattle.stub_poller.specs.Slots.{flying};

use crate::index::add_place;
use crate::row::{all_older, all_young, drop_gaps, has_name, index_closed};
use crate::search::{first_answered, first_truncated, number_of};
use crate::slot::Slot;
use pac_names::{Answer, LookupName};
use poll_log::{Flight, Question};
use std::alloc::Global;
use std::collections::BTreeMap;
use std::marker::Model;
use utf16_text::Memory;

/// Questions in flight, seen as a list in the order of asking. An index gives the places of each number, so that a
/// datagram is compared with the questions of its number alone.
///
/// A question that leaves keeps its place, as its number alone. Once the row is full, those places are closed, and room
/// is made for as many questions again as fly then: so asking takes steps of the logarithm on average.
#[derive(Drop)]
pub(crate) struct Flights {
    row: Vec<Slot>,
    places: BTreeMap<u16, Vec<usize>>,
}

impl Model for Flights {
    ghost use Rattle.std.specs.Prelude.{List};
    ghost use Rattle.poll_log.specs.declared.flight.Flight.{Flight};
    ghost use Rattle.stub_poller.specs.Slots.{IsIndexOf, flying, places_at};

    ghost Value = { List Flight };

    ghost view = { λ f. flying f.row.items };

    ghost invariant = { λ f. IsIndexOf (places_at f.places) f.row.items };
}

impl Flights {
    /// Nothing flies. It takes no memory.
    pub(crate) fn new(alloc: Global) -> Flights
        ensures { result ≡ [] }
    {
        Flights {
            row: Vec::new(alloc),
            places: BTreeMap::new(alloc),
        }
    }

    /// The places in the order of asking, those of questions that have left among them.
    pub(crate) fn slots(&self) -> &[Slot]
        ensures { flying result.now ≡ self.now }
    {
        &self.row
    }

    /// A question more, of age 0.
    pub(crate) fn push(&mut self, alloc: Global, question: Question) -> Result<(), Memory>
        ensures added { OnOk result (self.new ≡ self.old ++ record { question = question; age = 0 } ∷ []) }
        ensures unchanged { OnErr result (self.new ≡ self.old) }
    {
        self.make_place(alloc)?;
        self.row.reserve(1)?;
        add_place(alloc, &mut self.places, question.id, self.row.len())?;
        self.row
            .push(Slot::Flying(Flight { question, age: 0 }))
            .unwrap();
        Ok(())
    }

    // Closes the gaps of a full row, and makes room for as many questions again.
    fn make_place(&mut self, alloc: Global) -> Result<(), Memory>
        ensures { self.new ≡ self.old }
    {
        if self.row.len() < self.row.capacity() {
            return Ok(());
        }
        self.places = index_closed(alloc, &self.row)?;
        drop_gaps(&mut self.row);
        self.row.reserve(self.row.len() + 1)?;
        Ok(())
    }

    /// The name in flight to which the datagram is a reply, and the answer; the name is no longer in flight.
    pub(crate) fn take_answered(&mut self, datagram: &[u8]) -> Option<(LookupName, Answer)>
        ensures answer { result ≡ answered_by datagram.now self.old }
        ensures taken { self.new ≡ unanswered_by datagram.now self.old }
    {
        let number = number_of(datagram)?;
        let places = self.places.get(&number)?;
        let found = first_answered(&self.row, places, datagram)?;
        self.row[found.at] = Slot::Left(number);
        Some(found.what)
    }

    /// The question in flight to which the datagram is the truncated response, the first where it is one to more.
    pub(crate) fn truncated(&self, datagram: &[u8]) -> Option<Question>
        ensures { result ≡ truncated_in self.now datagram.now }
    {
        let number = number_of(datagram)?;
        let places = self.places.get(&number)?;
        let found = first_truncated(&self.row, places, datagram)?;
        Some(found.what)
    }

    /// One beat more.
    pub(crate) fn grow_older(&mut self)
        requires { All (λ f. f.age < 2 ^ 31) self.old }
        ensures { self.new ≡ map aged self.old }
    {
        all_older(&mut self.row);
    }

    /// Those at the limit leave.
    pub(crate) fn keep_young(&mut self, limit: u32)
        ensures { self.new ≡ filter (is_young limit) self.old }
    {
        all_young(&mut self.row, limit);
    }

    /// Whether a question for the name is in flight.
    pub(crate) fn has_name(&self, name: &LookupName) -> bool
        ensures { result ≡ list_any (λ f. same_name f.question.name name.now) self.now }
    {
        has_name(&self.row, name)
    }
}
