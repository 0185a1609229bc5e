// Reads of properties (ECMA-262 5.1, sections 8.7.1, 8.12.3 and 8.12.6).
ghost use Rattle.std.specs.Prelude.{◌≡◌, IfOk, IfSome, pos, slice_get};
ghost use Rattle.std.specs.Fmt.{decimal};
ghost use Rattle.std.specs.Str.{bytes_eq};
ghost use Rattle.heap_values.specs.declared.value.Value.TheVariants as value;
ghost use Rattle.js_convert.specs.Texts.{text_of};
ghost use Rattle.js_evaluation.specs.Objects as spec;
ghost use Rattle.heap_steps.specs.Works.{Tests, Works};

use crate::Halt;
use crate::errors::throw_type_error;
use heap_objects::array_index;
use heap_values::{BuiltIn, Found, ObjectId, Value};
use js_convert::to_text;
use js_tree::Place;
use object_heap::Heap;
use std::alloc::Global;
use utf16_text::{Memory, Text};
use whole_number::Whole;

/// `length`.
const LENGTH: [u16; 6] = [108, 101, 110, 103, 116, 104];

/// Whether a name has these units.
pub fn is_named(name: &Text, units: &[u16]) -> bool
    ensures { result ≡ bytes_eq name.now units.now }
{
    name.units() == units
}

/// Undefined and null have no properties (ECMA-262 5.1, section 9.10).
pub fn test_base(alloc: Global, heap: &mut Heap, base: &Value, place: Place) -> Result<(), Halt>
    ensures { Works (spec.test_base base.now place) heap.old result heap.new }
{
    match base {
        Value::Undefined => throw_type_error(alloc, heap, b"not an object", place),
        Value::Null => throw_type_error(alloc, heap, b"not an object", place),
        Value::Bool(_) => Ok(()),
        Value::Number(_) => Ok(()),
        Value::Text(_) => Ok(()),
        Value::Object(_) => Ok(()),
    }
}

/// What is found, where there is something; a mark ends the run.
pub fn found_value(otherwise: Value, found: Found, place: Place) -> Result<Value, Halt>
    ensures { Tests (spec.found_value otherwise found place) result }
{
    match found {
        Found::Value(value) => Ok(value),
        Found::Absent => Ok(otherwise),
        Found::LeftOut(name) => Err(Halt::LeftOut { name, place }),
    }
}

/// The object that a property of a value is looked up in: a primitive value has the prototype of its type.
fn holder_of(heap: &Heap, base: &Value) -> Option<ObjectId>
    ensures { result ≡ spec.holder_of base.now }
{
    match base {
        Value::Undefined => None,
        Value::Null => None,
        Value::Bool(_) => Some(heap.built_in(BuiltIn::BooleanPrototype)),
        Value::Number(_) => Some(heap.built_in(BuiltIn::NumberPrototype)),
        Value::Text(_) => Some(heap.built_in(BuiltIn::TextPrototype)),
        Value::Object(object) => Some(*object),
    }
}

/// A property of a value; undefined and null have none, and throw.
pub fn get(
    alloc: Global,
    heap: &mut Heap,
    base: &Value,
    name: &Text,
    place: Place,
) -> Result<Value, Halt>
    ensures { Works (spec.get base.now name.now place) heap.old result heap.new }
{
    match own_of(alloc, base, name)? {
        Some(value) => Ok(value),
        None => get_from(alloc, heap, holder_of(heap, base), name, place),
    }
}

/// A property of a value under the name that is the text of a primitive value. An index of an object becomes no text.
pub fn get_by(
    alloc: Global,
    heap: &mut Heap,
    base: &Value,
    key: &Value,
    place: Place,
) -> Result<Value, Halt>
    ensures { Works (spec.get base.now (text_of key.now) place) heap.old result heap.new }
{
    match (object_of(base), index_of(key)) {
        (Some(object), Some(index)) => {
            let found = heap.get_index(alloc, object, index)?;
            found_value(Value::Undefined, found, place)
        }
        _ => {
            let name = to_text(alloc, key)?;
            get(alloc, heap, base, &name, place)
        }
    }
}

/// The object that a value is.
pub(crate) fn object_of(base: &Value) -> Option<ObjectId>
    ensures { IfSome result (λ object. base.now ≡ value.Object object) }
{
    match base {
        Value::Object(object) => Some(*object),
        _ => None,
    }
}

/// The index that a key is, where the key is a number.
pub(crate) fn index_of(key: &Value) -> Option<u32>
    ensures { IfSome result (λ index. text_of key.now ≡ decimal index) }
{
    match key {
        Value::Number(number) => u32::try_from(number.get()).ok(),
        _ => None,
    }
}

fn get_from(
    alloc: Global,
    heap: &mut Heap,
    holder: Option<ObjectId>,
    name: &Text,
    place: Place,
) -> Result<Value, Halt>
    ensures { Works (spec.get_from holder name.now place) heap.old result heap.new }
{
    match holder {
        None => throw_type_error(alloc, heap, b"not an object", place),
        Some(holder) => {
            let found = heap.get(alloc, holder, name)?;
            found_value(Value::Undefined, found, place)
        }
    }
}

/// A property of a primitive value's own: the length of a text, and its units (ECMA-262 5.1, section 15.5.5).
pub fn own_of(alloc: Global, base: &Value, name: &Text) -> Result<Option<Value>, Memory>
    ensures { IfOk result (λ own. own ≡ spec.own_of base.now name.now) }
{
    match base {
        Value::Undefined => Ok(None),
        Value::Null => Ok(None),
        Value::Bool(_) => Ok(None),
        Value::Number(_) => Ok(None),
        Value::Text(text) => own_of_text(alloc, text, name),
        Value::Object(_) => Ok(None),
    }
}

fn own_of_text(alloc: Global, text: &Text, name: &Text) -> Result<Option<Value>, Memory>
    ensures { IfOk result (λ own. own ≡ spec.own_of_text text.now name.now) }
{
    if is_named(name, &LENGTH) {
        return Ok(Some(Value::Number(count_of(text.len())?)));
    }
    match array_index(name) {
        None => Ok(None),
        Some(i) => unit_of(alloc, text, i),
    }
}

/// A count as a number. Memory comes for one that nothing in memory can have.
pub fn count_of(count: usize) -> Result<Whole, Memory>
    ensures { IfOk result (λ number. number ≡ pos count) }
{
    match u32::try_from(count) {
        Ok(count) => Ok(Whole::from(count)),
        Err(_) => Err(Memory),
    }
}

/// The text of one unit of a text.
fn unit_of(alloc: Global, text: &Text, i: u32) -> Result<Option<Value>, Memory>
    ensures { IfOk result (λ own. own ≡ spec.unit_text (slice_get text.now i)) }
{
    match text.units().get(i as usize) {
        None => Ok(None),
        Some(unit) => Ok(Some(Value::Text(Text::from_units(alloc, &[*unit])?))),
    }
}

/// Whether an object has a property, by itself or by its prototypes.
pub fn has_property(
    alloc: Global,
    heap: &Heap,
    object: ObjectId,
    name: &Text,
    place: Place,
) -> Result<Value, Halt>
    ensures { Works (spec.has_property object name.now place) heap.now result heap.now }
{
    match heap.get(alloc, object, name)? {
        Found::Absent => Ok(Value::Bool(false)),
        Found::Value(_) => Ok(Value::Bool(true)),
        Found::LeftOut(name) => Err(Halt::LeftOut { name, place }),
    }
}

/// Whether a value is among the prototypes of an object; a value that is no object throws (ECMA-262 5.1, section
/// 15.3.5.3).
pub fn stands_among(
    alloc: Global,
    heap: &mut Heap,
    object: ObjectId,
    prototype: &Value,
    place: Place,
) -> Result<Value, Halt>
    ensures { Works (spec.stands_among object prototype.now place) heap.old result heap.new }
{
    match prototype {
        Value::Undefined => throw_type_error(alloc, heap, b"not an object", place),
        Value::Null => throw_type_error(alloc, heap, b"not an object", place),
        Value::Bool(_) => throw_type_error(alloc, heap, b"not an object", place),
        Value::Number(_) => throw_type_error(alloc, heap, b"not an object", place),
        Value::Text(_) => throw_type_error(alloc, heap, b"not an object", place),
        Value::Object(prototype) => Ok(Value::Bool(heap.inherits_from(object, *prototype))),
    }
}
