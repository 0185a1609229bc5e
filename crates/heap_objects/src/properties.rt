// The properties of one object.
ghost use Rattle.std.specs.Prelude.{◌≡◌, ◌∷◌, [], Some, None, true, IfOk, IfSome, OnOk, OnErr};
ghost use Rattle.std.specs.Fmt.{decimal};
ghost use Rattle.std.specs.Option.{option_copied};
ghost use Rattle.heap_elements.specs.Properties.{
  property_at,
  with_property,
  with_properties,
  without_property,
  listed_names_of,
};
ghost use Rattle.heap_elements.specs.Places.{NamesDiffer};
ghost use Rattle.heap_objects.specs.Forms.{listed, RowDiffers};

use crate::ordered::Ordered;
use heap_elements::{
    Elements, array_index, copy_of_row, find_in_row, index_name, list_row, remove_in_row,
    set_in_row,
};
use heap_values::Property;
use std::alloc::Global;
use std::marker::Model;
use utf16_text::{Memory, Text, TextList};

/// How many properties stand in a row at most.
const FEW: usize = 8;

/// Properties with distinct names, seen as a list of names and properties in the order of creation.
///
/// A few stand in a row, and many in a row with an index. Where the first is under the name 0, they are elements in
/// slots, until a name comes that is no index, or an index that is new and not past the last.
#[derive(Drop)]
pub struct Properties {
    form: Form,
}

#[derive(Drop)]
pub(crate) enum Form {
    Row(Vec<(Text, Property)>),
    Elements(Elements),
    Ordered(Box<Ordered>),
}

impl Model for Properties {
    ghost use Rattle.std.specs.Prelude.{List, ℕ};
    ghost use Rattle.heap_values.specs.declared.property.Property.{Property};

    ghost Value = { List (List ℕ × Property) };

    ghost use Rattle.heap_objects.specs.Forms.{listed, RowDiffers};

    ghost view = { λ p. listed p.form };

    ghost invariant = { λ p. RowDiffers p.form };
}

impl Properties {
    /// No properties.
    pub fn new(alloc: Global) -> Properties
        ensures { result ≡ [] }
    {
        Properties {
            form: Form::Row(Vec::new(alloc)),
        }
    }

    /// No properties, with room for so many.
    pub fn with_room(alloc: Global, count: usize) -> Result<Properties, Memory>
        ensures { IfOk result (λ properties. properties ≡ []) }
    {
        let row = Vec::with_capacity(alloc, count)?;
        Ok(Properties {
            form: Form::Row(row),
        })
    }

    /// The same properties. Their texts share their units with the copy.
    pub fn copy(&self, alloc: Global) -> Result<Properties, Memory>
        ensures { IfOk result (λ properties. properties ≡ self.now) }
    {
        let form = copied_form(alloc, &self.form)?;
        Ok(Properties { form })
    }

    /// The property of this name.
    pub fn get(&self, name: &Text) -> Option<&Property>
        ensures { option_copied result ≡ property_at self.now name.now }
    {
        match &self.form {
            Form::Row(row) => find_in_row(row, name),
            Form::Elements(elements) => elements.find(name),
            Form::Ordered(many) => many.get(name),
        }
    }

    /// The property under an index, where it is one of the elements. No name is made for it.
    pub fn element(&self, index: u32) -> Option<&Property>
        ensures { IfSome result (λ property. Some property.now ≡ property_at self.now (decimal index)) }
    {
        match &self.form {
            Form::Elements(elements) => elements.get(index),
            _ => None,
        }
    }

    /// Whether an element under this index goes behind the last. Nothing stands under it.
    pub fn is_past_last(&self, index: u32) -> bool
        ensures { result ≡ true → property_at self.now (decimal index) ≡ None }
    {
        match &self.form {
            Form::Row(row) => row.is_empty() && index == 0,
            Form::Elements(elements) => elements.is_past_last(index),
            Form::Ordered(_) => false,
        }
    }

    /// Gives `name` the property: in its place where it is there, else at the end.
    pub fn set(&mut self, alloc: Global, name: &Text, property: Property) -> Result<(), Memory>
        ensures ok { OnOk result (self.new ≡ with_property self.old name.now property) }
        ensures unchanged { OnErr result (self.new ≡ self.old) }
    {
        match &mut self.form {
            Form::Ordered(many) => many.set(alloc, name, property),
            Form::Elements(elements) => {
                if let Some(index) = elements.taken_index(name) {
                    return elements.set(index, property);
                }
                let row = elements.entries(alloc)?;
                self.form = many_with(alloc, &row, name, property)?;
                Ok(())
            }
            Form::Row(row) => {
                if row.is_empty() && is_zero(name) {
                    self.form = first_element(alloc, property)?;
                    return Ok(());
                }
                if row.len() < FEW || find_in_row(row, name).is_some() {
                    set_in_row(alloc, row, name, property)?;
                    return Ok(());
                }
                self.form = many_with(alloc, row, name, property)?;
                Ok(())
            }
        }
    }

    /// Gives the index the property: in its place where it is there, else at the end. No name is made for an element.
    pub fn set_index(&mut self, alloc: Global, index: u32, property: Property) -> Result<(), Memory>
        ensures ok { OnOk result (self.new ≡ with_property self.old (decimal index) property) }
        ensures unchanged { OnErr result (self.new ≡ self.old) }
    {
        if self.is_empty_row() && index == 0 {
            self.form = first_element(alloc, property)?;
            return Ok(());
        }
        if let Form::Elements(elements) = &mut self.form {
            if elements.takes(index) {
                return elements.set(index, property);
            }
        }
        self.set(alloc, &index_name(alloc, index)?, property)
    }

    fn is_empty_row(&self) -> bool
        ensures { result ≡ true → self.now ≡ [] }
    {
        match &self.form {
            Form::Row(row) => row.is_empty(),
            _ => false,
        }
    }

    /// Takes the property of this name away, where there is one. The others keep their order.
    pub fn remove(&mut self, name: &Text)
        ensures { self.new ≡ without_property self.old name.now }
    {
        match &mut self.form {
            Form::Row(row) => remove_in_row(row, name),
            Form::Elements(elements) => elements.remove_name(name),
            Form::Ordered(many) => many.remove(name),
        }
    }

    /// Adds these properties to others, one after the other.
    pub fn copy_into(&self, alloc: Global, all: &mut Properties) -> Result<(), Memory>
        ensures { OnOk result (all.new ≡ with_properties all.old self.now) }
    {
        match &self.form {
            Form::Row(row) => copy_row(alloc, row, all),
            Form::Elements(elements) => copy_row(alloc, &elements.entries(alloc)?, all),
            Form::Ordered(many) => many.copy_into(alloc, all),
        }
    }

    /// The names that are listed: array indexes first, rising, then the others in the order of creation.
    pub fn listed_names(&self, alloc: Global) -> Result<TextList, Memory>
        ensures { IfOk result (λ names. names ≡ listed_names_of self.now) }
    {
        match &self.form {
            Form::Row(row) => list_row(alloc, row),
            Form::Elements(elements) => elements.listed_names(alloc),
            Form::Ordered(many) => many.listed_names(alloc),
        }
    }
}

fn copied_form(alloc: Global, form: &Form) -> Result<Form, Memory>
    ensures listed { IfOk result (λ copy. listed copy ≡ listed form.now) }
    ensures differs { IfOk result (λ copy. RowDiffers form.now → RowDiffers copy) }
{
    match form {
        Form::Row(row) => Ok(Form::Row(copy_of_row(alloc, row)?)),
        Form::Elements(elements) => Ok(Form::Elements(elements.copy(alloc)?)),
        Form::Ordered(many) => Ok(Form::Ordered(Box::new(alloc, many.copy(alloc)?)?)),
    }
}

/// Adds the properties of a row to others.
fn copy_row(alloc: Global, row: &[(Text, Property)], all: &mut Properties) -> Result<(), Memory>
    ensures { OnOk result (all.new ≡ with_properties all.old row.now) }
{
    for entry in row {
        all.set(alloc, &entry.0, entry.1.copy(alloc)?)?;
    }
    Ok(())
}

fn is_zero(name: &Text) -> bool
    ensures { result ≡ true → name.now ≡ decimal 0 }
{
    match array_index(name) {
        None => false,
        Some(index) => index == 0,
    }
}

// One property, under the name 0.
fn first_element(alloc: Global, property: Property) -> Result<Form, Memory>
    ensures listed { IfOk result (λ form. listed form ≡ (decimal 0, property) ∷ []) }
    ensures differs { IfOk result (λ form. RowDiffers form) }
{
    let mut elements = Elements::new(alloc);
    elements.set(0, property)?;
    Ok(Form::Elements(elements))
}

// The properties of a row, and one more, in the form for many.
fn many_with(
    alloc: Global,
    row: &[(Text, Property)],
    name: &Text,
    property: Property,
) -> Result<Form, Memory>
    requires { NamesDiffer row.now }
    ensures listed { IfOk result (λ form. listed form ≡ with_property row.now name.now property) }
    ensures differs { IfOk result (λ form. RowDiffers form) }
{
    let mut many = ordered_of(alloc, row)?;
    many.set(alloc, name, property)?;
    Ok(Form::Ordered(Box::new(alloc, many)?))
}

/// The properties of a row under numbers.
fn ordered_of(alloc: Global, row: &[(Text, Property)]) -> Result<Ordered, Memory>
    requires { NamesDiffer row.now }
    ensures { IfOk result (λ many. many ≡ row.now) }
{
    let mut many = Ordered::new(alloc);
    for entry in row {
        many.set(alloc, &entry.0, entry.1.copy(alloc)?)?;
    }
    Ok(many)
}
