// What a beat brings.
ghost use Rattle.std.specs.Prelude.{
  ◌≡◌,
  ◌+◌,
  ◌≤◌,
  ◌++◌,
  IfOk,
  filter_map,
  length,
  map,
  vec_capacity,
  vec_len,
};
ghost use Rattle.std.specs.List.{filter};
ghost use Rattle.poll_log.specs.Sendings.{AreTerms};
ghost use Rattle.stub_poller.specs.State.{is_over, name_of, sending_of};
ghost use Rattle.stub_poller.specs.Slots.{flying, flying_here};

use crate::slot::Slot;
use pac_names::LookupName;
use poll_log::{Sending, Terms, server_of};
use std::alloc::Global;
use utf16_text::Memory;

/// What a beat brings, each list in the order of asking: the questions that are sent again, each with its server, and
/// the names that it ends.
#[derive(Drop)]
pub struct BeatReport {
    pub resend: Vec<Sending>,
    pub dead: Vec<LookupName>,
}

impl BeatReport {
    /// A copy of what is sent again.
    pub fn resends(&self, alloc: Global) -> Result<Vec<Sending>, Memory>
        ensures { IfOk result (λ copies. copies.items ≡ self.now.resend.items) }
    {
        let mut copies = Vec::new(alloc);
        for sending in &self.resend {
            copies.push(sending.copy())?;
        }
        Ok(copies)
    }
}

/// Puts the sendings that fall due in the place of what the list holds.
pub(crate) fn list_resends(list: &mut Vec<Sending>, row: &[Slot], terms: Terms)
    requires room { length (flying row.now) ≤ vec_capacity list.old }
    requires terms { AreTerms terms }
    ensures listed { list.new.items ≡ filter_map (sending_of terms) (flying row.now) }
    ensures capacity { vec_capacity list.old ≤ vec_capacity list.new }
{
    list.clear();
    for slot in row {
        add_resend(list, slot, terms);
    }
}

// Appends the sending of the question that flies here, if it falls due at its age.
fn add_resend(list: &mut Vec<Sending>, slot: &Slot, terms: Terms)
    requires room { vec_len list.old + length (flying_here slot.now) ≤ vec_capacity list.old }
    requires terms { AreTerms terms }
    ensures added { list.new.items ≡ list.old.items ++ filter_map (sending_of terms) (flying_here slot.now) }
    ensures few { vec_len list.new ≤ vec_len list.old + length (flying_here slot.now) }
    ensures capacity { vec_capacity list.old ≤ vec_capacity list.new }
{
    let Slot::Flying(flight) = slot else {
        return;
    };
    if let Some(number) = terms.sending_at(flight.age) {
        list.push(Sending {
            to: server_of(number),
            question: flight.question.copy(),
        })
        .unwrap();
    }
}

/// Puts the names that are over in the place of what the list holds.
pub(crate) fn list_deaths(list: &mut Vec<LookupName>, row: &[Slot], limit: u32)
    requires room { length (flying row.now) ≤ vec_capacity list.old }
    ensures listed { list.new.items ≡ map name_of (filter (is_over limit) (flying row.now)) }
    ensures capacity { vec_capacity list.old ≤ vec_capacity list.new }
{
    list.clear();
    for slot in row {
        add_death(list, slot, limit);
    }
}

// Appends the name of the question that flies here, if it is over.
fn add_death(list: &mut Vec<LookupName>, slot: &Slot, limit: u32)
    requires room { vec_len list.old + length (flying_here slot.now) ≤ vec_capacity list.old }
    ensures added { list.new.items ≡ list.old.items ++ map name_of (filter (is_over limit) (flying_here slot.now)) }
    ensures few { vec_len list.new ≤ vec_len list.old + length (flying_here slot.now) }
    ensures capacity { vec_capacity list.old ≤ vec_capacity list.new }
{
    let Slot::Flying(flight) = slot else {
        return;
    };
    if flight.age >= limit {
        list.push(flight.question.name.copy()).unwrap();
    }
}

/// Appends copies of names.
pub(crate) fn add_names(list: &mut Vec<LookupName>, names: &[LookupName])
    requires room { vec_len list.old + length names.now ≤ vec_capacity list.old }
    ensures added { list.new.items ≡ list.old.items ++ names.now }
    ensures capacity { vec_capacity list.old ≤ vec_capacity list.new }
{
    for name in names {
        list.push(name.copy()).unwrap();
    }
}
