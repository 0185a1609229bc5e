// All places in the order of asking.
ghost use Rattle.std.specs.Prelude.{◌≡◌, ◌≤◌, IfOk, filter, length, map};
ghost use Rattle.std.specs.List.{All, list_any};
ghost use Rattle.stub_poller.specs.Slots.{IsIndexOf, IsLow, flies, named_here, older_here, places_at, young_here};

use crate::index::add_place;
use crate::slot::Slot;
use pac_names::LookupName;
use std::alloc::Global;
use std::collections::BTreeMap;
use utf16_text::Memory;

/// One beat more.
pub(crate) fn all_older(row: &mut [Slot])
    requires { All IsLow row.old }
    ensures { row.new ≡ map older_here row.old }
{
    for slot in row.iter_mut() {
        slot.grow_older();
    }
}

/// Those at the limit leave.
pub(crate) fn all_young(row: &mut [Slot], limit: u32)
    ensures { row.new ≡ map (young_here limit) row.old }
{
    for slot in row.iter_mut() {
        slot.leave_if_over(limit);
    }
}

/// The index of the row without the places of questions that have left.
pub(crate) fn index_closed(alloc: Global, row: &[Slot]) -> Result<BTreeMap<u16, Vec<usize>>, Memory>
    ensures { IfOk result (λ places. IsIndexOf (places_at places) (filter flies row.now)) }
{
    let mut places = BTreeMap::new(alloc);
    let mut next = 0;
    for slot in row {
        if !slot.flies() {
            continue;
        }
        add_place(alloc, &mut places, slot.number(), next)?;
        next += 1;
    }
    Ok(places)
}

/// Takes the places of questions that have left out of the row.
pub(crate) fn drop_gaps(row: &mut Vec<Slot>)
    ensures after { row.new.items ≡ filter flies row.old.items }
    ensures fewer { length row.new.items ≤ length row.old.items }
{
    row.retain(|slot| slot.flies());
}

/// Whether a question for the name is in flight.
pub(crate) fn has_name(row: &[Slot], name: &LookupName) -> bool
    ensures { result ≡ list_any (named_here name.now) row.now }
{
    row.iter().any(|slot| slot.has_name(name))
}
