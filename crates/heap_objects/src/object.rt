// One object.
ghost use Rattle.std.specs.Prelude.{◌≡◌, ◌-◌, ◌⊎◌, false, IfOk, IfSome, OnOk, OnErr, map, fold};
ghost use Rattle.std.specs.Fmt.{decimal};
ghost use Rattle.heap_objects.specs.Object.{
  empty_object,
  own_found,
  built_in_object,
  own_marks,
  is_length,
  grown_length_of,
  put_cost_of,
  written,
  object_after,
  object_with,
  can_delete,
  is_fixed,
  object_without,
  object_cut,
  index_names,
};
ghost use Rattle.heap_elements.specs.Places.{NamesDiffer};
ghost use Rattle.heap_objects.specs.TableRows.{entries_of, row_read};
ghost use Rattle.heap_elements.specs.Properties.{listed_names_of, without_property};

use crate::layered::{Layered, found_in_property};
use crate::marks::Marks;
use crate::table_row::TableRow;
use heap_elements::{array_index, index_name};
use heap_values::{Content, Found, Kind, ObjectId, Property, Value};
use shared_list::Copied;
use std::alloc::Global;
use std::marker::Model;
use utf16_text::{Memory, Text, TextList};
use whole_number::Whole;

/// `length`.
const LENGTH: [u16; 6] = [108, 101, 110, 103, 116, 104];

/// An object: what it is, its properties, its prototype, and the length that an array has.
#[derive(Drop)]
pub struct Object {
    kind: Kind,
    properties: Layered,
    prototype: Option<ObjectId>,
    length: u32,
}

impl Model for Object {
    ghost use Rattle.heap_values.specs.Views.{ObjectView};

    ghost Value = { ObjectView };

    ghost view = { λ o. record { kind = o.kind; properties = o.properties; prototype = o.prototype; length = o.length } };
}

impl Object {
    /// An object without properties.
    pub fn new(alloc: Global, kind: Kind, prototype: Option<ObjectId>) -> Object
        ensures { result ≡ empty_object kind prototype }
    {
        Object {
            kind,
            properties: Layered::new(alloc),
            prototype,
            length: 0,
        }
    }

    /// An object without properties, with room for so many.
    pub fn with_room(
        alloc: Global,
        kind: Kind,
        prototype: Option<ObjectId>,
        count: usize,
    ) -> Result<Object, Memory>
        ensures { IfOk result (λ object. object ≡ empty_object kind prototype) }
    {
        let properties = Layered::with_room(alloc, count)?;
        Ok(Object {
            kind,
            properties,
            prototype,
            length: 0,
        })
    }

    /// A built-in object with the properties of these rows.
    pub fn built_in(
        alloc: Global,
        kind: Kind,
        prototype: Option<ObjectId>,
        rows: &'static [TableRow],
    ) -> Result<Object, Memory>
        requires { NamesDiffer (entries_of (map row_read rows.now)) }
        ensures { IfOk result (λ object. object ≡ built_in_object kind prototype (map row_read rows.now)) }
    {
        let properties = Layered::built_in(alloc, rows)?;
        Ok(Object {
            kind,
            properties,
            prototype,
            length: 0,
        })
    }

    pub fn kind(&self) -> Kind
        ensures { result ≡ self.now.kind }
    {
        self.kind
    }

    pub fn prototype(&self) -> Option<ObjectId>
        ensures { result ≡ self.now.prototype }
    {
        self.prototype
    }

    /// The length of an array; 0 for any other object.
    pub fn length(&self) -> u32
        ensures { result ≡ self.now.length }
    {
        self.length
    }

    /// Whether `name` is the length of this object, that is of an array.
    pub fn is_length(&self, name: &Text) -> bool
        ensures { result ≡ is_length self.now.kind name.now }
    {
        match self.kind {
            Kind::Array => name.units() == LENGTH.as_slice(),
            _ => false,
        }
    }

    /// What the object itself has under a name (ECMA-262 5.1, section 8.12.1).
    pub fn find_own(&self, alloc: Global, name: &Text) -> Result<Found, Memory>
        ensures { IfOk result (λ found. found ≡ own_found self.now name.now) }
    {
        if self.is_length(name) {
            return Ok(Found::Value(Value::Number(Whole::from(self.length))));
        }
        self.properties.find(alloc, name)
    }

    /// What the object itself has under an index, where it is one of the elements. No name is made for it.
    pub fn find_element(&self, alloc: Global, index: u32) -> Result<Found, Memory>
        ensures { IfOk result (λ found. (found ≡ Found.Absent) ⊎ (found ≡ own_found self.now (decimal index))) }
    {
        match self.properties.element(index) {
            None => Ok(Found::Absent),
            Some(property) => found_in_property(alloc, property),
        }
    }

    /// The marks of the object's own property of this name. The length of an array is none.
    pub fn own_marks(&self, name: &Text) -> Option<Marks>
        ensures { result ≡ own_marks self.now name.now }
    {
        self.properties.marks(name)
    }

    /// The length that the object has once something stands under `name`.
    pub fn grown_length(&self, name: &Text) -> u32
        ensures { result ≡ grown_length_of self.now name.now }
    {
        match self.kind {
            Kind::Array => match array_index(name) {
                None => self.length,
                Some(index) => self.length.max(index + 1),
            },
            _ => self.length,
        }
    }

    /// The length that the object has once something stands under an index.
    pub fn grown_length_at(&self, index: u32) -> u32
        ensures { result ≡ grown_length_of self.now (decimal index) }
    {
        match self.kind {
            Kind::Array => {
                if index < u32::MAX {
                    self.length.max(index + 1)
                } else {
                    self.length
                }
            }
            _ => self.length,
        }
    }

    /// The cells that a write under `name` takes, where `old` are the marks of the property that it finds.
    pub fn put_cost(&self, name: &Text, old: Option<Marks>) -> u64
        requires { old ≡ own_marks self.now name.now }
        ensures { result ≡ put_cost_of self.now name.now }
    {
        let steps = u64::from(self.grown_length(name)) - u64::from(self.length);
        match old {
            None => steps + 1,
            Some(_) => steps,
        }
    }

    /// The cells that a write under an index takes, where an element has it or the next would. No name is made for it.
    pub fn element_cost(&self, index: u32) -> Option<u64>
        ensures cost { IfSome result (λ cost. cost ≡ put_cost_of self.now (decimal index)) }
        ensures no_length { is_length self.now.kind (decimal index) ≡ false }
    {
        let steps = u64::from(self.grown_length_at(index)) - u64::from(self.length);
        if self.properties.element(index).is_some() {
            return Some(steps);
        }
        if self.properties.is_past_last(index) {
            return Some(steps + 1);
        }
        None
    }

    /// Writes a value under a name that is not the length of an array, where `old` are the marks of the property that
    /// it finds. A new property is listed and can be deleted.
    pub fn put(
        &mut self,
        alloc: Global,
        name: &Text,
        old: Option<Marks>,
        value: Value,
    ) -> Result<(), Memory>
        requires no_length { is_length self.old.kind name.now ≡ false }
        requires old { old ≡ own_marks self.old name.now }
        ensures ok { OnOk result (self.new ≡ object_after self.old name.now value) }
        ensures unchanged { OnErr result (self.new ≡ self.old) }
    {
        self.define(alloc, name, written(old, value))
    }

    /// Writes a value under an index. A new property is listed and can be deleted. No name is made for an element.
    pub fn put_index(&mut self, alloc: Global, index: u32, value: Value) -> Result<(), Memory>
        ensures ok { OnOk result (self.new ≡ object_after self.old (decimal index) value) }
        ensures unchanged { OnErr result (self.new ≡ self.old) }
    {
        let property = written(self.properties.marks_at(alloc, index)?, value);
        self.define_index(alloc, index, property)
    }

    /// Gives an index this property. No name is made for an element.
    pub fn define_index(
        &mut self,
        alloc: Global,
        index: u32,
        property: Property,
    ) -> Result<(), Memory>
        ensures ok { OnOk result (self.new ≡ object_with self.old (decimal index) property) }
        ensures unchanged { OnErr result (self.new ≡ self.old) }
    {
        let grown = self.grown_length_at(index);
        self.properties.set_index(alloc, index, property)?;
        self.length = grown;
        Ok(())
    }

    /// Gives a name that is not the length of an array this property.
    pub fn define(&mut self, alloc: Global, name: &Text, property: Property) -> Result<(), Memory>
        requires { is_length self.old.kind name.now ≡ false }
        ensures ok { OnOk result (self.new ≡ object_with self.old name.now property) }
        ensures unchanged { OnErr result (self.new ≡ self.old) }
    {
        let length = self.grown_length(name);
        self.properties.set(alloc, name, property)?;
        self.length = length;
        Ok(())
    }

    /// Deletes a property. The answer is false where it is there and can't be deleted; then it stays.
    pub fn delete(&mut self, name: &Text) -> bool
        ensures answer { result ≡ can_delete self.old name.now }
        ensures after { self.new ≡ object_without self.old name.now }
    {
        if self.is_length(name) || is_fixed(self.properties.marks(name)) {
            return false;
        }
        self.properties.remove(name);
        true
    }

    /// Sets the length of an array. Where it falls, the elements from there on are deleted.
    pub fn set_length(&mut self, alloc: Global, size: u32) -> Result<(), Memory>
        ensures ok { OnOk result (self.new ≡ object_cut self.old size) }
        ensures unchanged { OnErr result (self.new ≡ self.old) }
    {
        let names = names_between(alloc, size, self.length)?;
        remove_all(&mut self.properties, names.as_slice());
        self.length = size;
        Ok(())
    }

    /// The names of its own that `for`-`in` lists: array indexes first, rising, then the others in the order of
    /// creation.
    pub fn listed_names(&self, alloc: Global) -> Result<TextList, Memory>
        ensures { IfOk result (λ names. names ≡ listed_names_of self.now.properties) }
    {
        self.properties.listed_names(alloc)
    }
}

impl Copied for Object {
    fn copied(&self, alloc: Global) -> Result<Object, Memory> {
        let properties = self.properties.copy(alloc)?;
        Ok(Object {
            kind: self.kind,
            properties,
            prototype: self.prototype,
            length: self.length,
        })
    }
}

fn written(old: Option<Marks>, value: Value) -> Property
    ensures { result ≡ written value old }
{
    let content = Content::Value(value);
    match old {
        None => Property {
            content,
            listed: true,
            deletable: true,
        },
        Some(marks) => Property {
            content,
            listed: marks.listed,
            deletable: marks.deletable,
        },
    }
}

// Whether there is a property that can't be deleted.
fn is_fixed(marks: Option<Marks>) -> bool
    ensures { result ≡ is_fixed marks }
{
    match marks {
        None => false,
        Some(marks) => !marks.deletable,
    }
}

/// The indexes from `from` up to and without `to`, as names.
fn names_between(alloc: Global, from: u32, to: u32) -> Result<TextList, Memory>
    ensures { IfOk result (λ names. names ≡ index_names from (to - from)) }
{
    let mut names = TextList::new(alloc);
    for index in from..to {
        names.push(alloc, index_name(alloc, index)?)?;
    }
    Ok(names)
}

fn remove_all(properties: &mut Layered, names: &[Text])
    ensures { properties.new ≡ fold without_property properties.old names.now }
{
    for name in names {
        properties.remove(name);
    }
}
