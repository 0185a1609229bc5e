// The rows of a table that a built-in object begins with, until they are deleted.
ghost use Rattle.std.specs.Prelude.{◌≡◌, ◌<◌, ◌≤◌, ◌∷◌, [], map, length, slice_get, IfSome, OnOk};
ghost use Rattle.std.specs.Option.{option_copied, option_map};
ghost use Rattle.heap_elements.specs.Properties.{property_at, without_property, with_properties};
ghost use Rattle.heap_elements.specs.Places.{NamesDiffer};
ghost use Rattle.heap_objects.specs.Slots.{place_in, standing};
ghost use Rattle.heap_objects.specs.TableRows.{
  entries_of,
  left_in,
  slots_in,
  slot_of,
  has_name,
  is_gone,
  row_read,
  row_property,
};

use crate::properties::Properties;
use crate::table_row::{TableRow, is_named, name_of_row, property_of_row};
use std::alloc::Global;
use std::marker::Model;
use utf16_text::{Memory, Text};

/// How many rows can be marked.
pub(crate) const MOST_ROWS: usize = 64;

/// Rows of a table, and which of them are gone: a deletion has no memory to ask for, so it only marks its row.
#[derive(Drop)]
pub(crate) struct TableRows {
    rows: &'static [TableRow],
    gone: [bool; MOST_ROWS],
}

impl Model for TableRows {
    ghost use Rattle.std.specs.Prelude.{◌≡◌, map, length};
    ghost use Rattle.heap_objects.specs.TableRows.{TableView, row_read};

    ghost Value = { TableView };

    ghost view = { λ t. record { rows = map row_read t.rows.now; gone = t.gone } };

    ghost invariant = { λ t. length t.gone ≡ 64 };
}

impl TableRows {
    /// All these rows.
    pub(crate) fn new(rows: &'static [TableRow]) -> TableRows
        ensures left { left_in result ≡ entries_of (map row_read rows.now) }
        ensures rows { result.rows ≡ map row_read rows.now }
    {
        TableRows {
            rows,
            gone: [false; MOST_ROWS],
        }
    }

    /// The same rows.
    pub(crate) fn copy(&self) -> TableRows
        ensures { result ≡ self.now }
    {
        TableRows {
            rows: self.rows,
            gone: self.gone,
        }
    }

    /// The row of this name.
    pub(crate) fn find(&self, name: &Text) -> Option<&TableRow>
        ensures { option_map (λ row. row_property (row_read row)) (option_copied result) ≡ property_at (left_in self.now) name.now }
    {
        match self.place_of(name) {
            None => None,
            Some(at) => self.row_at(at),
        }
    }

    /// Takes the property of this name away, where there is one. The others keep their order.
    pub(crate) fn remove(&mut self, name: &Text)
        requires few { length self.old.rows ≤ 64 }
        requires differ { NamesDiffer (left_in self.old) }
        ensures after { left_in self.new ≡ without_property (left_in self.old) name.now }
        ensures rows { self.new.rows ≡ self.old.rows }
    {
        if let Some(at) = self.place_of(name) {
            self.gone[at] = true;
        }
    }

    /// Adds the properties that are left, one after the other.
    pub(crate) fn copy_into(&self, alloc: Global, all: &mut Properties) -> Result<(), Memory>
        ensures { OnOk result (all.new ≡ with_properties all.old (left_in self.now)) }
    {
        for at in 0..self.len() {
            copy_row(alloc, self.row_at(at), all)?;
        }
        Ok(())
    }

    // The place of a name among the rows that are left.
    fn place_of(&self, name: &Text) -> Option<usize>
        ensures place { result ≡ place_in (slots_in self.now) name.now }
        ensures within { IfSome result (λ at. at < length self.now.rows) }
    {
        for at in 0..self.len() {
            if self.has_name(at, name) {
                return Some(at);
            }
        }
        None
    }

    // Whether the row at this place is left and has the name.
    fn has_name(&self, at: usize, name: &Text) -> bool
        requires { at < length self.now.rows }
        ensures { option_map (λ slot. has_name slot name.now) (slice_get (slots_in self.now) at) ≡ Some result }
    {
        match self.row_at(at) {
            None => false,
            Some(row) => is_named(row, name),
        }
    }

    // The row at this place, where it is left.
    fn row_at(&self, at: usize) -> Option<&TableRow>
        requires { at < length self.now.rows }
        ensures { slice_get (slots_in self.now) at ≡ Some (slot_of (option_copied result)) }
    {
        let rows = self.rows;
        if self.is_gone(at) {
            return None;
        }
        Some(&rows[at])
    }

    fn len(&self) -> usize
        ensures { result ≡ length self.now.rows }
    {
        self.rows.len()
    }

    fn is_gone(&self, at: usize) -> bool
        ensures { result ≡ is_gone self.now.gone at }
    {
        at < MOST_ROWS && self.gone[at]
    }
}

fn copy_row(alloc: Global, row: Option<&TableRow>, all: &mut Properties) -> Result<(), Memory>
    ensures { OnOk result (all.new ≡ with_properties all.old (standing (slot_of (option_copied row.entry) ∷ []))) }
{
    if let Some(row) = row {
        all.set(
            alloc,
            &name_of_row(alloc, row)?,
            property_of_row(alloc, row)?,
        )?;
    }
    Ok(())
}
