// A row of slots, some of them empty.
ghost use Rattle.std.specs.Prelude.{
  ◌≡◌,
  ◌<◌,
  ◌≤◌,
  ◌++◌,
  ◌∷◌,
  [],
  Some,
  is_some,
  length,
  filter,
  slice_get,
  slice_set,
  IfOk,
  IfSome,
  OnOk,
  OnErr,
};
ghost use Rattle.std.specs.Option.{option_copied};
ghost use Rattle.heap_objects.specs.Slots.{property_in, standing};
ghost use Rattle.heap_elements.specs.Properties.{listed_names_of, with_properties};

use crate::properties::Properties;
use heap_elements::{join_names, list_name};
use heap_values::Property;
use std::alloc::Global;
use std::collections::BTreeMap;
use utf16_text::{Memory, Text, TextList};

/// A property with its name, or the gap that a deleted one left.
pub(crate) type Slot = Option<(Text, Property)>;

/// The property in a slot.
pub(crate) fn property_at_place(row: &[Slot], place: u32) -> Option<&Property>
    ensures { option_copied result ≡ property_in (slice_get row.now place) }
{
    match row.get(place as usize) {
        Some(Some(entry)) => Some(&entry.1),
        _ => None,
    }
}

/// The place behind the last slot; none where it would not be below 2^32.
pub(crate) fn next_place(row: &[Slot]) -> Option<u32>
    ensures is { IfSome result (λ place. place ≡ length row.now) }
    ensures small { IfSome result (λ place. place < 4294967296) }
{
    u32::try_from(row.len()).ok()
}

/// Fills or empties a slot; nothing changes where there is none.
pub(crate) fn write_slot(row: &mut Vec<Slot>, place: u32, slot: Slot)
    ensures { row.new.items ≡ slice_set row.old.items place slot }
{
    let at = place as usize;
    if at < row.len() {
        row[at] = slot;
    }
}

/// Puts a slot behind the others. A full row grows by an eighth, so that it takes little more room than it has slots.
pub(crate) fn append_slot(row: &mut Vec<Slot>, name: Text, property: Property) -> Result<(), Memory>
    ensures ok { OnOk result (row.new.items ≡ row.old.items ++ Some (name, property) ∷ []) }
    ensures unchanged { OnErr result (row.new.items ≡ row.old.items) }
{
    if row.len() == row.capacity() {
        row.reserve_exact(row.len() / 8 + 1)?;
    }
    row.push(Some((name, property)))?;
    Ok(())
}

/// Takes the empty slots out. It takes no memory.
pub(crate) fn drop_gaps(row: &mut Vec<Slot>)
    ensures after { row.new.items ≡ filter is_some row.old.items }
    ensures fewer { length row.new.items ≤ length row.old.items }
{
    row.retain(|slot| slot.is_some());
}

/// The same row. Its texts share their units with the copy.
pub(crate) fn copied_row(alloc: Global, row: &[Slot]) -> Result<Vec<Slot>, Memory>
    ensures { IfOk result (λ copies. copies.items ≡ row.now) }
{
    let mut copies = Vec::with_capacity(alloc, row.len())?;
    for slot in row {
        copies.push(copied_slot(alloc, slot)?)?;
    }
    Ok(copies)
}

fn copied_slot(alloc: Global, slot: &Slot) -> Result<Slot, Memory>
    ensures { IfOk result (λ copy. copy ≡ slot.now) }
{
    match slot {
        None => Ok(None),
        Some(entry) => Ok(Some((entry.0.copy(alloc)?, entry.1.copy(alloc)?))),
    }
}

/// Adds what stands in a row to other properties, one after the other.
pub(crate) fn copy_slots(alloc: Global, row: &[Slot], all: &mut Properties) -> Result<(), Memory>
    ensures { OnOk result (all.new ≡ with_properties all.old (standing row.now)) }
{
    for slot in row {
        if let Some(entry) = slot {
            all.set(alloc, &entry.0, entry.1.copy(alloc)?)?;
        }
    }
    Ok(())
}

/// The listed names of what stands in a row.
pub(crate) fn list_slots(alloc: Global, row: &[Slot]) -> Result<TextList, Memory>
    ensures { IfOk result (λ names. names ≡ listed_names_of (standing row.now)) }
{
    let mut indexed = BTreeMap::new(alloc);
    let mut others = TextList::new(alloc);
    for slot in row {
        if let Some(entry) = slot {
            list_name(alloc, &mut indexed, &mut others, &entry.0, &entry.1)?;
        }
    }
    join_names(alloc, &indexed, &others)
}
