// The built-in objects are made from the tables.
ghost use Rattle.std.specs.Prelude.{◌≡◌, ◌≤◌, ◌-◌, ◌++◌, IsTrue, IfOk, OnOk, map, length};
ghost use Rattle.std.specs.List.{list_all};
ghost use Rattle.heap_objects.specs.TableRows.{row_read};
ghost use Rattle.object_heap.specs.Fresh.{
  built_in_number,
  object_read,
  object_of as object_view,
  natives_from,
  names_differ,
  roots,
  prototypes,
  constructors,
  built_in_objects,
};
ghost use Rattle.object_heap.specs.Heap.{PrototypesAreOlder};

use crate::table::{
    ARRAY_PROTOTYPE, BOOLEAN_PROTOTYPE, CONSTRUCTORS, ERROR_PROTOTYPE, FIRST_NATIVE,
    FUNCTION_PROTOTYPE, GLOBAL, NATIVES, NUMBER_PROTOTYPE, OBJECT_PROTOTYPE, OBJECTS_MORE,
    PATTERN_PROTOTYPE, PROTOTYPES, RANGE_ERROR_PROTOTYPE, REFERENCE_ERROR_PROTOTYPE, ROOTS,
    STRING_PROTOTYPE, TYPE_ERROR_PROTOTYPE, TableObject,
};
use heap_objects::Object;
use heap_values::{BuiltIn, Kind, ObjectId};
use std::alloc::Global;
use utf16_text::Memory;

/// The built-in object.
pub(crate) fn object_of(which: BuiltIn) -> ObjectId
    ensures { result.0 ≡ built_in_number which }
{
    match which {
        BuiltIn::Global => GLOBAL,
        BuiltIn::ObjectPrototype => OBJECT_PROTOTYPE,
        BuiltIn::FunctionPrototype => FUNCTION_PROTOTYPE,
        BuiltIn::ArrayPrototype => ARRAY_PROTOTYPE,
        BuiltIn::TextPrototype => STRING_PROTOTYPE,
        BuiltIn::NumberPrototype => NUMBER_PROTOTYPE,
        BuiltIn::BooleanPrototype => BOOLEAN_PROTOTYPE,
        BuiltIn::ErrorPrototype => ERROR_PROTOTYPE,
        BuiltIn::TypeErrorPrototype => TYPE_ERROR_PROTOTYPE,
        BuiltIn::RangeErrorPrototype => RANGE_ERROR_PROTOTYPE,
        BuiltIn::ReferenceErrorPrototype => REFERENCE_ERROR_PROTOTYPE,
        BuiltIn::PatternPrototype => PATTERN_PROTOTYPE,
    }
}

/// The built-in objects, of which there are few.
pub(crate) fn make_built_ins(alloc: Global) -> Result<Vec<Object>, Memory>
    ensures objects { IfOk result (λ objects. objects.items ≡ built_in_objects) }
    ensures count { IfOk result (λ objects. length objects.items ≤ 1000) }
    ensures older { IfOk result (λ objects. PrototypesAreOlder objects.items) }
{
    let mut objects = Vec::with_capacity(alloc, usize::from(NATIVES) + OBJECTS_MORE as usize)?;
    add_roots(alloc, &mut objects)?;
    add_prototypes(alloc, &mut objects)?;
    add_constructors(alloc, &mut objects)?;
    add_natives(alloc, &mut objects)?;
    Ok(objects)
}

fn add_roots(alloc: Global, objects: &mut Vec<Object>) -> Result<(), Memory>
    ensures { OnOk result (objects.new.items ≡ objects.old.items ++ map object_view roots) }
{
    add_objects(alloc, objects, ROOTS)
}

fn add_prototypes(alloc: Global, objects: &mut Vec<Object>) -> Result<(), Memory>
    ensures { OnOk result (objects.new.items ≡ objects.old.items ++ map object_view prototypes) }
{
    add_objects(alloc, objects, PROTOTYPES)
}

fn add_constructors(alloc: Global, objects: &mut Vec<Object>) -> Result<(), Memory>
    ensures { OnOk result (objects.new.items ≡ objects.old.items ++ map object_view constructors) }
{
    add_objects(alloc, objects, CONSTRUCTORS)
}

/// Adds the objects of a part of the table.
fn add_objects(
    alloc: Global,
    objects: &mut Vec<Object>,
    table: &'static [TableObject],
) -> Result<(), Memory>
    requires { IsTrue (list_all (λ object. names_differ (map row_read object.1.now)) table.now) }
    ensures { OnOk result (objects.new.items ≡ objects.old.items ++ map object_view (map object_read table.now)) }
{
    for (blank, rows) in table {
        objects.push(Object::built_in(alloc, blank.kind, blank.prototype, rows)?)?;
    }
    Ok(())
}

/// Adds the natives that aren't in the table.
fn add_natives(alloc: Global, objects: &mut Vec<Object>) -> Result<(), Memory>
    ensures { OnOk result (objects.new.items ≡ objects.old.items ++ natives_from FIRST_NATIVE (NATIVES - FIRST_NATIVE)) }
{
    for number in FIRST_NATIVE..NATIVES {
        objects.push(Object::new(alloc, Kind::Native(number), Some(FUNCTION_PROTOTYPE)))?;
    }
    Ok(())
}
