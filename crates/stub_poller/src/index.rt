// The places of questions by number.
ghost use Rattle.std.specs.Prelude.{◌≡◌, ℕ, ◌∷◌, ◌++◌, [], OnErr, OnOk, if◌then◌else◌, nat_eq};
ghost use Rattle.stub_poller.specs.Slots.{places_at};

use std::alloc::Global;
use std::collections::BTreeMap;
use std::collections::btree_map::Entry;
use utf16_text::Memory;

/// A number has one place more, behind the others.
pub(crate) fn add_place(
    alloc: Global,
    index: &mut BTreeMap<u16, Vec<usize>>,
    number: u16,
    place: usize,
) -> Result<(), Memory>
    ensures added { OnOk result ((other : ℕ) → places_at index.new other ≡ places_at index.old other ++ (if nat_eq number other then place ∷ [] else [])) }
    ensures unchanged { OnErr result ((other : ℕ) → places_at index.new other ≡ places_at index.old other) }
{
    match index.entry(number)? {
        Entry::Occupied(mut entry) => entry.get_mut().push(place)?,
        Entry::Vacant(entry) => {
            let mut first = Vec::new(alloc);
            first.push(place)?;
            entry.insert(first);
        }
    }
    Ok(())
}
