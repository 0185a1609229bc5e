// A property that a built-in object begins with, as a row of a table.
ghost use Rattle.std.specs.Prelude.{◌≡◌, length, IfOk};
ghost use Rattle.std.specs.Str.{bytes_eq};
ghost use Rattle.heap_objects.specs.TableRows.{row_read, row_property, entry_content};
ghost use Rattle.heap_objects.specs.Object.{found_content, marks_of};

use crate::marks::Marks;
use heap_values::{Content, Found, ObjectId, Property, Value};
use std::alloc::Global;
use utf16_text::{Memory, Text};

/// What stands under the name of a row. The row's text goes with `LeftOut` and `Text`.
#[derive(Clone, Copy)]
pub enum Entry {
    /// The mark of a built-in that is left out, with the text by which a fault names it.
    LeftOut,
    Text,
    Undefined,
    Object(ObjectId),
}

/// A property of a built-in object: the name, what stands there with its text, and whether it can be deleted. It isn't
/// listed. (It is a tuple because clauses can't see a constant of a struct that holds references.)
pub type TableRow = (&'static str, Entry, &'static str, bool);

/// Whether the row has this name.
pub(crate) fn is_named(row: &TableRow, name: &Text) -> bool
    ensures { result ≡ bytes_eq name.now (row_read row.now).0 }
{
    let units = name.units();
    let bytes = row.0.as_bytes();
    units.len() == bytes.len() && are_same(units, bytes)
}

fn are_same(units: &[u16], bytes: &[u8]) -> bool
    requires { length units.now ≡ length bytes.now }
    ensures { result ≡ bytes_eq units.now bytes.now }
{
    for at in 0..bytes.len() {
        if units[at] != u16::from(bytes[at]) {
            return false;
        }
    }
    true
}

pub(crate) fn name_of_row(alloc: Global, row: &TableRow) -> Result<Text, Memory>
    ensures { IfOk result (λ name. name ≡ (row_read row.now).0) }
{
    Text::from_latin_1(alloc, row.0.as_bytes())
}

pub(crate) fn marks_of_row(row: &TableRow) -> Marks
    ensures { result ≡ marks_of (row_property (row_read row.now)) }
{
    Marks {
        listed: false,
        deletable: row.3,
    }
}

pub(crate) fn property_of_row(alloc: Global, row: &TableRow) -> Result<Property, Memory>
    ensures { IfOk result (λ property. property ≡ row_property (row_read row.now)) }
{
    Ok(Property {
        content: content_of_row(alloc, row)?,
        listed: false,
        deletable: row.3,
    })
}

pub(crate) fn found_in_row(alloc: Global, row: &TableRow) -> Result<Found, Memory>
    ensures { IfOk result (λ found. found ≡ found_content (row_property (row_read row.now)).content) }
{
    match content_of_row(alloc, row)? {
        Content::Value(value) => Ok(Found::Value(value)),
        Content::LeftOut(text) => Ok(Found::LeftOut(text)),
    }
}

fn content_of_row(alloc: Global, row: &TableRow) -> Result<Content, Memory>
    ensures { IfOk result (λ content. content ≡ entry_content row.now.1 row.now.2.now) }
{
    match row.1 {
        Entry::LeftOut => Ok(Content::LeftOut(Text::from_latin_1(alloc, row.2.as_bytes())?)),
        Entry::Text => Ok(Content::Value(Value::Text(Text::from_latin_1(
            alloc,
            row.2.as_bytes(),
        )?))),
        Entry::Undefined => Ok(Content::Value(Value::Undefined)),
        Entry::Object(id) => Ok(Content::Value(Value::Object(id))),
    }
}
