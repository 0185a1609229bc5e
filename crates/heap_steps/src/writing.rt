// Writes and deletions of properties (ECMA-262 5.1, sections 8.7.2, 8.12.5, 8.12.7 and 11.4.1).
ghost use Rattle.std.specs.Prelude.{◌≡◌, ◌⊎◌, List, ℕ, IsTrue, false, Result, Err};
ghost use Rattle.std.specs.Fmt.{decimal};
ghost use Rattle.heap_values.specs.Views.{HeapView};
ghost use Rattle.object_heap.specs.Heap.{object_at, own_marks_in};
ghost use Rattle.js_convert.specs.Texts.{text_of};
ghost use Rattle.js_evaluation.specs.Objects as spec;
ghost use Rattle.heap_steps.specs.Works.{Works, deletion, is_kept as kept};

use crate::errors::throw_error;
use crate::properties::{index_of, is_named, object_of, own_of};
use crate::{Halt, refused};
use heap_values::{BuiltIn, Found, HeapAnswer, Kind, ObjectId, Value};
use js_convert::to_text;
use js_tree::Place;
use object_heap::Heap;
use std::alloc::Global;
use utf16_text::Text;

/// `length`.
const LENGTH: [u16; 6] = [108, 101, 110, 103, 116, 104];

/// `prototype`.
const PROTOTYPE: [u16; 9] = [112, 114, 111, 116, 111, 116, 121, 112, 101];

/// `source`.
const SOURCE: [u16; 6] = [115, 111, 117, 114, 99, 101];

/// `global`.
const GLOBAL: [u16; 6] = [103, 108, 111, 98, 97, 108];

/// `ignoreCase`.
const IGNORE_CASE: [u16; 10] = [105, 103, 110, 111, 114, 101, 67, 97, 115, 101];

/// `multiline`.
const MULTILINE: [u16; 9] = [109, 117, 108, 116, 105, 108, 105, 110, 101];

/// `undefined`.
const UNDEFINED: [u16; 9] = [117, 110, 100, 101, 102, 105, 110, 101, 100];

/// Whether this is the global `undefined` (ECMA-262 5.1, section 15.1.1.3).
fn is_the_undefined(heap: &Heap, object: ObjectId, name: &Text) -> bool
    ensures { result ≡ spec.is_the_undefined object name.now }
{
    object.0 == heap.built_in(BuiltIn::Global).0 && is_named(name, &UNDEFINED)
}

/// Whether a pattern says this of its literal (ECMA-262 5.1, sections 15.10.7.1 to 15.10.7.4).
fn tells_literal(name: &Text) -> bool
    ensures { result ≡ spec.tells_literal name.now }
{
    is_named(name, &SOURCE)
        || is_named(name, &GLOBAL)
        || is_named(name, &IGNORE_CASE)
        || is_named(name, &MULTILINE)
}

/// Whether this is the length of a function, the prototype of a constructor that is built in, or what a pattern says of
/// its literal.
fn is_fixed_in(heap: &Heap, object: ObjectId, name: &Text) -> bool
    ensures { result ≡ spec.is_fixed_in (object_at heap.now object) name.now }
{
    match heap.kind(object) {
        Kind::Plain => false,
        Kind::Array => false,
        Kind::Function(_, _) => is_named(name, &LENGTH),
        Kind::Native(_) => is_named(name, &PROTOTYPE) && is_kept(heap, object, name),
        Kind::Error => false,
        Kind::Pattern(_) => tells_literal(name),
    }
}

/// Whether the object has a property of this name that can't be deleted.
fn is_kept(heap: &Heap, object: ObjectId, name: &Text) -> bool
    ensures { result ≡ kept (own_marks_in (object_at heap.now object) name.now) }
{
    match heap.own_marks(object, name) {
        None => false,
        Some(marks) => !marks.deletable,
    }
}

/// Whether writes to the property are ignored.
fn is_fixed(heap: &Heap, object: ObjectId, name: &Text) -> bool
    ensures { result ≡ spec.is_fixed heap.now object name.now }
{
    is_the_undefined(heap, object, name) || is_fixed_in(heap, object, name)
}

/// Writes a property of an object.
pub fn put_on(
    alloc: Global,
    heap: &mut Heap,
    object: ObjectId,
    name: &Text,
    value: Value,
    place: Place,
) -> Result<(), Halt>
    ensures { Works (spec.put_on object name.now value place) heap.old result heap.new }
{
    if is_fixed(heap, object, name) {
        return Ok(());
    }
    match heap.put(alloc, object, name, value) {
        Ok(()) => Ok(()),
        Err(answer) => not_stored(alloc, heap, answer, place),
    }
}

/// What a write comes to that the heap refuses.
fn not_stored(alloc: Global, heap: &mut Heap, answer: HeapAnswer, place: Place) -> Result<(), Halt>
    ensures { (stored : Result HeapView HeapAnswer) → ((answer ≡ HeapAnswer.Memory) ⊎ (stored ≡ Err answer)) → Works (spec.written place stored) heap.old result heap.new }
{
    match answer {
        HeapAnswer::BadLength => {
            let message = Text::from_latin_1(alloc, b"invalid array length")?;
            throw_error(alloc, heap, BuiltIn::RangeErrorPrototype, message, place)
        }
        answer => Err(refused(answer, place)),
    }
}

/// Whether the object is an array without properties that ignore writes. The global object might be none.
fn takes_writes(heap: &Heap, object: ObjectId) -> bool
    ensures { IsTrue result → (name : List ℕ) → spec.is_fixed heap.now object name ≡ false }
{
    match heap.kind(object) {
        Kind::Array => object.0 != heap.built_in(BuiltIn::Global).0,
        _ => false,
    }
}

/// Writes under an index of an array whose writes are taken.
fn put_at(
    alloc: Global,
    heap: &mut Heap,
    object: ObjectId,
    index: u32,
    value: Value,
    place: Place,
) -> Result<(), Halt>
    requires { (name : List ℕ) → spec.is_fixed heap.old object name ≡ false }
    ensures { Works (spec.put_on object (decimal index) value place) heap.old result heap.new }
{
    match heap.put_index(alloc, object, index, value) {
        Ok(()) => Ok(()),
        Err(answer) => not_stored(alloc, heap, answer, place),
    }
}

/// Writes a property of a value; one of a primitive value is ignored. The base was tested before.
pub fn put(
    alloc: Global,
    heap: &mut Heap,
    base: &Value,
    name: &Text,
    value: Value,
    place: Place,
) -> Result<(), Halt>
    ensures { Works (spec.put base.now name.now value place) heap.old result heap.new }
{
    match base {
        Value::Undefined => Ok(()),
        Value::Null => Ok(()),
        Value::Bool(_) => Ok(()),
        Value::Number(_) => Ok(()),
        Value::Text(_) => Ok(()),
        Value::Object(object) => put_on(alloc, heap, *object, name, value, place),
    }
}

/// Writes a property of a value under the name that is the text of a primitive value. An index of an array becomes no
/// text.
pub fn put_by(
    alloc: Global,
    heap: &mut Heap,
    base: &Value,
    key: &Value,
    value: Value,
    place: Place,
) -> Result<(), Halt>
    ensures { Works (spec.put base.now (text_of key.now) value place) heap.old result heap.new }
{
    match (object_of(base), index_of(key)) {
        (Some(object), Some(index)) if takes_writes(heap, object) => {
            put_at(alloc, heap, object, index, value, place)
        }
        _ => {
            let name = to_text(alloc, key)?;
            put(alloc, heap, base, &name, value, place)
        }
    }
}

/// Deletes a property of a value. The length and the units of a text can't be deleted.
pub fn delete_property(
    alloc: Global,
    heap: &mut Heap,
    base: &Value,
    name: &Text,
    place: Place,
) -> Result<Value, Halt>
    ensures { Works (spec.delete_property base.now name.now place) heap.old result heap.new }
{
    match base {
        Value::Undefined => Ok(Value::Bool(true)),
        Value::Null => Ok(Value::Bool(true)),
        Value::Bool(_) => Ok(Value::Bool(true)),
        Value::Number(_) => Ok(Value::Bool(true)),
        Value::Text(_) => Ok(Value::Bool(own_of(alloc, base, name)?.is_none())),
        Value::Object(object) => delete_of(alloc, heap, *object, name, place),
    }
}

/// Deletes a property of an object; a mark of the object's own ends the run.
fn delete_of(
    alloc: Global,
    heap: &mut Heap,
    object: ObjectId,
    name: &Text,
    place: Place,
) -> Result<Value, Halt>
    ensures { Works (deletion object name.now place) heap.old result heap.new }
{
    match heap.get_own(alloc, object, name)? {
        Found::LeftOut(name) => Err(Halt::LeftOut { name, place }),
        Found::Absent => Ok(Value::Bool(heap.delete(alloc, object, name)?)),
        Found::Value(_) => Ok(Value::Bool(heap.delete(alloc, object, name)?)),
    }
}
