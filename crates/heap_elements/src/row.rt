// A few properties in a row.
ghost use Rattle.std.specs.Prelude.{◌≡◌, ◌<◌, IfOk, IfSome, IfNone, OnOk, OnErr, length};
ghost use Rattle.std.specs.Str.{bytes_eq};
ghost use Rattle.std.specs.Option.{option_copied};
ghost use Rattle.heap_elements.specs.Properties.{property_at, with_property, without_property};
ghost use Rattle.heap_elements.specs.Places.{StandsAt, IsMissing, NamesDiffer};

use heap_values::Property;
use std::alloc::Global;
use utf16_text::{Memory, Text};

/// The same row. Its texts share their units with the copy.
pub fn copy_of_row(alloc: Global, row: &[(Text, Property)]) -> Result<Vec<(Text, Property)>, Memory>
    ensures { IfOk result (λ copy. copy.items ≡ row.now) }
{
    let mut copy = Vec::with_capacity(alloc, row.len())?;
    for entry in row {
        copy.push((entry.0.copy(alloc)?, entry.1.copy(alloc)?))?;
    }
    Ok(copy)
}

pub fn find_in_row<'a>(row: &'a [(Text, Property)], name: &Text) -> Option<&'a Property>
    ensures { option_copied result ≡ property_at row.now name.now }
{
    match place_in(row, name) {
        None => None,
        Some(at) => Some(&row[at].1),
    }
}

// The place of a name.
fn place_in(row: &[(Text, Property)], name: &Text) -> Option<usize>
    ensures found { IfSome result (λ at. StandsAt row.now name.now at) }
    ensures within { IfSome result (λ at. at < length row.now) }
    ensures missing { IfNone result (IsMissing row.now name.now) }
{
    let mut at = 0;
    while at < row.len() {
        if is_same(name, &row[at].0) {
            return Some(at);
        }
        at += 1;
    }
    None
}

fn is_same(a: &Text, b: &Text) -> bool
    ensures { result ≡ bytes_eq a.now b.now }
{
    a.units() == b.units()
}

/// Gives `name` the property: in its place where it is there, else at the end. The row grows by one place at a time, so
/// that it takes no more room than it has properties.
pub fn set_in_row(
    alloc: Global,
    row: &mut Vec<(Text, Property)>,
    name: &Text,
    property: Property,
) -> Result<(), Memory>
    ensures ok { OnOk result (row.new.items ≡ with_property row.old.items name.now property) }
    ensures unchanged { OnErr result (row.new.items ≡ row.old.items) }
{
    match place_in(row, name) {
        Some(at) => {
            row[at].1 = property;
            Ok(())
        }
        None => {
            let key = name.copy(alloc)?;
            row.reserve_exact(1)?;
            row.push((key, property))?;
            Ok(())
        }
    }
}

pub fn remove_in_row(row: &mut Vec<(Text, Property)>, name: &Text)
    ensures after { row.new.items ≡ without_property row.old.items name.now }
    ensures differ { NamesDiffer row.old.items → NamesDiffer row.new.items }
{
    if let Some(at) = place_in(row, name) {
        let _gone = row.remove(at);
    }
}
