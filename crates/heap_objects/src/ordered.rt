// Many properties, each at its place in the order of creation.
ghost use Rattle.std.specs.Prelude.{◌≡◌, [], IfOk, OnOk, OnErr};
ghost use Rattle.std.specs.Option.{option_copied};
ghost use Rattle.heap_elements.specs.Properties.{
  property_at,
  with_property,
  with_properties,
  without_property,
  listed_names_of,
};

use crate::index::{copied_places, move_places, place_or, remove_place};
use crate::properties::Properties;
use crate::slots::{
    Slot, append_slot, copied_row, copy_slots, drop_gaps, list_slots, next_place,
    property_at_place, write_slot,
};
use heap_values::Property;
use std::alloc::Global;
use std::collections::BTreeMap;
use std::marker::Model;
use utf16_text::{Memory, Text, TextList};

/// Properties with distinct names, seen as a list in the order of creation. They stand in a row, and an index gives the
/// place of each name, so that a script can't choose names that are slow.
///
/// A deletion leaves a gap in the row. Once fewer than half of the slots are filled, the gaps are closed, which takes
/// steps in proportion to the deletions since the last time, each of the logarithm: so a deletion takes that on
/// average.
#[derive(Drop)]
pub(crate) struct Ordered {
    row: Vec<Slot>,
    places: BTreeMap<Text, u32>,
}

impl Model for Ordered {
    ghost use Rattle.std.specs.Prelude.{List, ℕ};
    ghost use Rattle.std.specs.Ordering.{nat_cmp};
    ghost use Rattle.std.specs.Cmp.Lexicographic.{slice_cmp};
    ghost use Rattle.std.specs.BTreeMap.{get};
    ghost use Rattle.heap_values.specs.declared.property.Property.{Property};
    ghost use Rattle.heap_objects.specs.Slots.{standing, IsIndexOf};

    ghost Value = { List (List ℕ × Property) };

    ghost view = { λ o. standing o.row.items };

    ghost invariant = { λ o. IsIndexOf (get (slice_cmp nat_cmp) o.places) o.row.items };
}

impl Ordered {
    pub(crate) fn new(alloc: Global) -> Ordered
        ensures { result ≡ [] }
    {
        Ordered {
            row: Vec::new(alloc),
            places: BTreeMap::new(alloc),
        }
    }

    /// The same properties. Their texts share their units with the copy.
    pub(crate) fn copy(&self, alloc: Global) -> Result<Ordered, Memory>
        ensures { IfOk result (λ many. many ≡ self.now) }
    {
        let row = copied_row(alloc, &self.row)?;
        let places = copied_places(&self.places)?;
        Ok(Ordered { row, places })
    }

    pub(crate) fn get(&self, name: &Text) -> Option<&Property>
        ensures { option_copied result ≡ property_at self.now name.now }
    {
        match self.places.get(name).copied() {
            None => None,
            Some(place) => property_at_place(&self.row, place),
        }
    }

    /// Gives `name` the property: in its place where it is there, else at the end.
    pub(crate) fn set(
        &mut self,
        alloc: Global,
        name: &Text,
        property: Property,
    ) -> Result<(), Memory>
        ensures ok { OnOk result (self.new ≡ with_property self.old name.now property) }
        ensures unchanged { OnErr result (self.new ≡ self.old) }
    {
        let Some(next) = next_place(&self.row) else {
            return Err(Memory);
        };
        let held = name.copy(alloc)?;
        let place = place_or(&mut self.places, name.copy(alloc)?, next)?;
        if place < next {
            write_slot(&mut self.row, place, Some((held, property)));
            return Ok(());
        }
        match append_slot(&mut self.row, held, property) {
            Ok(()) => Ok(()),
            Err(memory) => {
                remove_place(&mut self.places, name);
                Err(memory)
            }
        }
    }

    /// Takes the property of this name away, where there is one. The others keep their order.
    pub(crate) fn remove(&mut self, name: &Text)
        ensures { self.new ≡ without_property self.old name.now }
    {
        let Some(place) = remove_place(&mut self.places, name) else {
            return;
        };
        write_slot(&mut self.row, place, None);
        if self.places.len() < self.row.len() / 2 {
            self.close_gaps();
        }
    }

    // Takes the empty slots out of the row.
    fn close_gaps(&mut self)
        ensures { self.new ≡ self.old }
    {
        drop_gaps(&mut self.row);
        move_places(&self.row, &mut self.places);
    }

    /// Adds these properties to others, one after the other.
    pub(crate) fn copy_into(&self, alloc: Global, all: &mut Properties) -> Result<(), Memory>
        ensures { OnOk result (all.new ≡ with_properties all.old self.now) }
    {
        copy_slots(alloc, &self.row, all)
    }

    /// The names that are listed: array indexes first, rising, then the others in the order of creation.
    pub(crate) fn listed_names(&self, alloc: Global) -> Result<TextList, Memory>
        ensures { IfOk result (λ names. names ≡ listed_names_of self.now) }
    {
        list_slots(alloc, &self.row)
    }
}
