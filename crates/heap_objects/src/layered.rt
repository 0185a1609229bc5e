// The properties of one object, in two layers.
ghost use Rattle.std.specs.Prelude.{◌≡◌, [], Some, None, true, is_some, map, IfOk, IfSome, OnOk, OnErr};
ghost use Rattle.std.specs.Fmt.{decimal};
ghost use Rattle.std.specs.Option.{option_copied, option_map};
ghost use Rattle.heap_elements.specs.Properties.{
  property_at,
  with_property,
  with_properties,
  without_property,
  listed_names_of,
};
ghost use Rattle.heap_elements.specs.Places.{NamesDiffer};
ghost use Rattle.heap_objects.specs.Object.{found_property, marks_if};
ghost use Rattle.heap_objects.specs.TableRows.{entries_of, row_read, row_property};
ghost use Rattle.heap_objects.specs.Layers.{layers, left_of, AreMarked};

use crate::marks::{Marks, marks_of};
use crate::properties::Properties;
use crate::table_row::{TableRow, found_in_row, marks_of_row};
use crate::table_rows::{MOST_ROWS, TableRows};
use heap_elements::index_name;
use heap_values::{Content, Found, Property};
use std::alloc::Global;
use std::marker::Model;
use utf16_text::{Memory, Text, TextList};

/// Properties with distinct names, seen as a list of names and properties in the order of creation.
///
/// Those that a built-in object begins with stay in the program's table, and take no memory of the heap. Behind them
/// stand the object's own. The first write under a name of the table makes all of them the object's own.
#[derive(Drop)]
pub(crate) struct Layered {
    table: Option<Box<TableRows>>,
    own: Properties,
}

impl Model for Layered {
    ghost use Rattle.std.specs.Prelude.{List, ℕ};
    ghost use Rattle.heap_values.specs.declared.property.Property.{Property};
    ghost use Rattle.heap_elements.specs.Places.{NamesDiffer};
    ghost use Rattle.heap_objects.specs.Layers.{layers, AreMarked};

    ghost Value = { List (List ℕ × Property) };

    ghost view = { λ p. layers p.table p.own };

    ghost invariant = { λ p. AreMarked p.table × NamesDiffer (layers p.table p.own) };
}

impl Layered {
    /// No properties.
    pub(crate) fn new(alloc: Global) -> Layered
        ensures { result ≡ [] }
    {
        Layered {
            table: None,
            own: Properties::new(alloc),
        }
    }

    /// No properties, with room for so many.
    pub(crate) fn with_room(alloc: Global, count: usize) -> Result<Layered, Memory>
        ensures { IfOk result (λ properties. properties ≡ []) }
    {
        let own = Properties::with_room(alloc, count)?;
        Ok(Layered { table: None, own })
    }

    /// The properties of these rows.
    pub(crate) fn built_in(alloc: Global, rows: &'static [TableRow]) -> Result<Layered, Memory>
        requires { NamesDiffer (entries_of (map row_read rows.now)) }
        ensures { IfOk result (λ properties. properties ≡ entries_of (map row_read rows.now)) }
    {
        let table = TableRows::new(rows);
        let mut own = Properties::new(alloc);
        if rows.is_empty() || rows.len() > MOST_ROWS {
            table.copy_into(alloc, &mut own)?;
            return Ok(Layered { table: None, own });
        }
        let table = Some(Box::new(alloc, table)?);
        Ok(Layered { table, own })
    }

    /// The same properties. Their texts share their units with the copy.
    pub(crate) fn copy(&self, alloc: Global) -> Result<Layered, Memory>
        ensures { IfOk result (λ properties. properties ≡ self.now) }
    {
        let table = copied_table(alloc, &self.table)?;
        let own = self.own.copy(alloc)?;
        Ok(Layered { table, own })
    }

    /// What stands under this name.
    pub(crate) fn find(&self, alloc: Global, name: &Text) -> Result<Found, Memory>
        ensures { IfOk result (λ found. found ≡ found_property (property_at self.now name.now)) }
    {
        if let Some(property) = self.own.get(name) {
            return found_in_property(alloc, property);
        }
        match row_in(&self.table, name) {
            None => Ok(Found::Absent),
            Some(row) => found_in_row(alloc, row),
        }
    }

    /// The property under an index, where it is one of the elements. No name is made for it.
    pub(crate) fn element(&self, index: u32) -> Option<&Property>
        ensures { IfSome result (λ property. Some property.now ≡ property_at self.now (decimal index)) }
    {
        self.own.element(index)
    }

    /// Whether an element under this index goes behind the last. Nothing stands under it.
    pub(crate) fn is_past_last(&self, index: u32) -> bool
        ensures { result ≡ true → property_at self.now (decimal index) ≡ None }
    {
        has_no_table(&self.table) && self.own.is_past_last(index)
    }

    /// The marks of the property under an index. No name is made for an element.
    pub(crate) fn marks_at(&self, alloc: Global, index: u32) -> Result<Option<Marks>, Memory>
        ensures { IfOk result (λ marks. marks ≡ marks_if (property_at self.now (decimal index))) }
    {
        if let Some(property) = self.element(index) {
            return Ok(Some(marks_of(property)));
        }
        if self.is_past_last(index) {
            return Ok(None);
        }
        Ok(self.marks(&index_name(alloc, index)?))
    }

    /// The marks of the property of this name.
    pub(crate) fn marks(&self, name: &Text) -> Option<Marks>
        ensures { result ≡ marks_if (property_at self.now name.now) }
    {
        if let Some(property) = self.own.get(name) {
            return Some(marks_of(property));
        }
        match row_in(&self.table, name) {
            None => None,
            Some(row) => Some(marks_of_row(row)),
        }
    }

    /// Gives `name` the property: in its place where it is there, else at the end.
    pub(crate) fn set(
        &mut self,
        alloc: Global,
        name: &Text,
        property: Property,
    ) -> Result<(), Memory>
        ensures ok { OnOk result (self.new ≡ with_property self.old name.now property) }
        ensures unchanged { OnErr result (self.new ≡ self.old) }
    {
        if !has_row(&self.table, name) {
            return self.own.set(alloc, name, property);
        }
        let mut own = settled(alloc, &self.table, &self.own)?;
        own.set(alloc, name, property)?;
        self.own = own;
        self.table = None;
        Ok(())
    }

    /// Gives the index the property: in its place where it is there, else at the end. No name is made for an element.
    pub(crate) fn set_index(
        &mut self,
        alloc: Global,
        index: u32,
        property: Property,
    ) -> Result<(), Memory>
        ensures ok { OnOk result (self.new ≡ with_property self.old (decimal index) property) }
        ensures unchanged { OnErr result (self.new ≡ self.old) }
    {
        if has_no_table(&self.table) {
            return self.own.set_index(alloc, index, property);
        }
        self.set(alloc, &index_name(alloc, index)?, property)
    }

    /// Takes the property of this name away, where there is one. The others keep their order.
    pub(crate) fn remove(&mut self, name: &Text)
        ensures { self.new ≡ without_property self.old name.now }
    {
        self.own.remove(name);
        remove_row(&mut self.table, name);
    }

    /// The names that are listed: array indexes first, rising, then the others in the order of creation.
    pub(crate) fn listed_names(&self, alloc: Global) -> Result<TextList, Memory>
        ensures { IfOk result (λ names. names ≡ listed_names_of self.now) }
    {
        self.own.listed_names(alloc)
    }
}

fn copied_table(
    alloc: Global,
    table: &Option<Box<TableRows>>,
) -> Result<Option<Box<TableRows>>, Memory>
    ensures left { IfOk result (λ copy. left_of copy ≡ left_of table.now) }
    ensures marked { IfOk result (λ copy. AreMarked table.now → AreMarked copy) }
{
    match table {
        None => Ok(None),
        Some(table) => Ok(Some(Box::new(alloc, table.copy())?)),
    }
}

// The row of this name that is left.
fn row_in<'a>(table: &'a Option<Box<TableRows>>, name: &Text) -> Option<&'a TableRow>
    ensures { option_map (λ row. row_property (row_read row)) (option_copied result) ≡ property_at (left_of table.now) name.now }
{
    match table {
        None => None,
        Some(table) => table.find(name),
    }
}

fn has_no_table(table: &Option<Box<TableRows>>) -> bool
    ensures { result ≡ true → left_of table.now ≡ [] }
{
    match table {
        None => true,
        Some(_) => false,
    }
}

fn has_row(table: &Option<Box<TableRows>>, name: &Text) -> bool
    ensures { result ≡ is_some (property_at (left_of table.now) name.now) }
{
    match row_in(table, name) {
        None => false,
        Some(_) => true,
    }
}

fn remove_row(table: &mut Option<Box<TableRows>>, name: &Text)
    requires marked { AreMarked table.old }
    requires differ { NamesDiffer (left_of table.old) }
    ensures after { left_of table.new ≡ without_property (left_of table.old) name.now }
    ensures marked { AreMarked table.new }
{
    match table {
        None => {}
        Some(table) => table.remove(name),
    }
}

// Adds what is left of the rows.
fn copy_rows(
    alloc: Global,
    table: &Option<Box<TableRows>>,
    all: &mut Properties,
) -> Result<(), Memory>
    ensures { OnOk result (all.new ≡ with_properties all.old (left_of table.now)) }
{
    match table {
        None => Ok(()),
        Some(table) => table.copy_into(alloc, all),
    }
}

// Both layers in one.
fn settled(
    alloc: Global,
    table: &Option<Box<TableRows>>,
    own: &Properties,
) -> Result<Properties, Memory>
    requires { NamesDiffer (layers table.now own.now) }
    ensures { IfOk result (λ all. all ≡ layers table.now own.now) }
{
    let mut all = Properties::new(alloc);
    copy_rows(alloc, table, &mut all)?;
    own.copy_into(alloc, &mut all)?;
    Ok(all)
}

/// What stands under the name of a property.
pub(crate) fn found_in_property(alloc: Global, property: &Property) -> Result<Found, Memory>
    ensures { IfOk result (λ found. found ≡ found_property (Some property.now)) }
{
    match &property.content {
        Content::Value(value) => Ok(Found::Value(value.copy(alloc)?)),
        Content::LeftOut(text) => Ok(Found::LeftOut(text.copy(alloc)?)),
    }
}
