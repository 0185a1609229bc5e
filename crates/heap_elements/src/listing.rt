// The names that `for`-`in` lists of one object.
ghost use Rattle.std.specs.Prelude.{◌≡◌, ◌++◌, [], IfOk, OnOk, if◌then◌else◌};
ghost use Rattle.std.specs.BTreeMap.{values};
ghost use Rattle.heap_elements.specs.Names.{array_index as index_of};
ghost use Rattle.heap_elements.specs.Properties.{index_put, name_unless_index, listed_names_of};

use crate::names::array_index;
use heap_values::Property;
use std::alloc::Global;
use std::collections::BTreeMap;
use utf16_text::{Memory, Text, TextList};

/// Puts a name that is listed among the indexes or behind the others.
pub fn list_name(
    alloc: Global,
    indexed: &mut BTreeMap<u32, Text>,
    others: &mut TextList,
    name: &Text,
    property: &Property,
) -> Result<(), Memory>
    ensures indexed { OnOk result (indexed.new.entries ≡ (if property.now.listed then index_put indexed.old.entries name.now (index_of name.now) else indexed.old.entries)) }
    ensures others { OnOk result (others.new ≡ others.old ++ (if property.now.listed then name_unless_index name.now (index_of name.now) else [])) }
{
    if !property.listed {
        return Ok(());
    }
    match array_index(name) {
        Some(index) => {
            indexed.insert(index, name.copy(alloc)?)?;
            Ok(())
        }
        None => others.push(alloc, name.copy(alloc)?),
    }
}

/// The listed names of a row.
pub fn list_row(alloc: Global, row: &[(Text, Property)]) -> Result<TextList, Memory>
    ensures { IfOk result (λ names. names ≡ listed_names_of row.now) }
{
    let mut indexed = BTreeMap::new(alloc);
    let mut others = TextList::new(alloc);
    for entry in row {
        list_name(alloc, &mut indexed, &mut others, &entry.0, &entry.1)?;
    }
    join_names(alloc, &indexed, &others)
}

/// The indexes, rising, then the others.
pub fn join_names(
    alloc: Global,
    indexed: &BTreeMap<u32, Text>,
    others: &TextList,
) -> Result<TextList, Memory>
    ensures { IfOk result (λ names. names ≡ values indexed.now ++ others.now) }
{
    let mut names = TextList::new(alloc);
    for name in indexed.values() {
        names.push(alloc, name.copy(alloc)?)?;
    }
    for name in others.as_slice() {
        names.push(alloc, name.copy(alloc)?)?;
    }
    Ok(names)
}
