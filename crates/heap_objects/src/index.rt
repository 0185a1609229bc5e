// The index of an object's names: the place of each in a row of slots.
ghost use Rattle.std.specs.Prelude.{◌≡◌, ◌≤◌, ℕ, List, Some, None, length, is_some, IfOk, OnErr};
ghost use Rattle.std.specs.Option.{unwrap_or};
ghost use Rattle.std.specs.Ordering.{nat_cmp};
ghost use Rattle.std.specs.BTreeMap.{get};
ghost use Rattle.std.specs.Cmp.Lexicographic.{slice_cmp};
ghost use Rattle.heap_elements.specs.Places.{NamesDiffer};
ghost use Rattle.heap_objects.specs.Slots.{Updated, moved, standing, place_in};

use crate::slots::Slot;
use std::collections::BTreeMap;
use utf16_text::{Memory, Text};

/// The place of a name. One that is new to the index gets the place `next`.
pub(crate) fn place_or(
    places: &mut BTreeMap<Text, u32>,
    name: Text,
    next: u32,
) -> Result<u32, Memory>
    ensures place { IfOk result (λ place. place ≡ unwrap_or (get (slice_cmp nat_cmp) places.old name) next) }
    ensures after { IfOk result (λ place. Updated (get (slice_cmp nat_cmp) places.old) name (Some place) (get (slice_cmp nat_cmp) places.new)) }
    ensures unchanged { OnErr result (places.new.entries ≡ places.old.entries) }
{
    let place = places.entry(name)?.or_insert(next);
    Ok(*place)
}

/// The same index. The names share their units with the copy.
pub(crate) fn copied_places(places: &BTreeMap<Text, u32>) -> Result<BTreeMap<Text, u32>, Memory>
    ensures { IfOk result (λ copy. copy.entries ≡ places.now.entries) }
{
    Ok(places.clone()?)
}

/// Takes a name out of the index. The answer is the place that it had.
pub(crate) fn remove_place(places: &mut BTreeMap<Text, u32>, name: &Text) -> Option<u32>
    ensures place { result ≡ get (slice_cmp nat_cmp) places.old name.now }
    ensures after { Updated (get (slice_cmp nat_cmp) places.old) name.now None (get (slice_cmp nat_cmp) places.new) }
{
    places.remove(name)
}

/// Gives a name that is in the index another place.
fn move_place(places: &mut BTreeMap<Text, u32>, name: &Text, place: u32)
    ensures { Updated (get (slice_cmp nat_cmp) places.old) name.now (moved (get (slice_cmp nat_cmp) places.old name.now) place) (get (slice_cmp nat_cmp) places.new) }
{
    if let Some(held) = places.get_mut(name) {
        *held = place;
    }
}

/// Gives each name of the row, which are those in the index, its place in the row.
pub(crate) fn move_places(row: &[Slot], places: &mut BTreeMap<Text, u32>)
    requires few { length row.now ≤ 4294967296 }
    requires differ { NamesDiffer (standing row.now) }
    requires same { (name : List ℕ) → is_some (get (slice_cmp nat_cmp) places.old name) ≡ is_some (place_in row.now name) }
    ensures { (name : List ℕ) → get (slice_cmp nat_cmp) places.new name ≡ place_in row.now name }
{
    for at in 0..row.len() {
        if let Some(entry) = &row[at] {
            move_place(places, &entry.0, at as u32);
        }
    }
}
