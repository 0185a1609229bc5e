// Objects (ECMA-262 5.1, section 15.2).
ghost use Rattle.std.specs.Prelude.{◌≡◌, codes};
ghost use Rattle.js_convert.specs.Texts.{text_of};
ghost use Rattle.js_evaluation.specs.Handed as handed;
ghost use Rattle.js_evaluation.specs.NativeWork as spec;
ghost use Rattle.js_evaluation.specs.Objects.{is_there};
ghost use Rattle.js_evaluation.specs.State.{unsupported};
ghost use Rattle.js_natives.specs.Given.{class_given};
ghost use Rattle.heap_steps.specs.Works.{Tests, Works};

use crate::lists::give_texts;
use crate::walks::argument;
use heap_steps::{Halt, counted, make_by, own_of, throw_type_error};
use heap_values::{BuiltIn, Found, Kind, ObjectId, Value};
use js_convert::to_text;
use js_tree::Place;
use object_heap::Heap;
use std::alloc::Global;
use utf16_text::Text;

/// `Object`: an object is itself; undefined and null make one; the objects of other values are left out (ECMA-262 5.1,
/// sections 15.2.1.1 and 15.2.2.1).
pub fn object_of(alloc: Global, heap: &mut Heap, value: Value, place: Place) -> Result<Value, Halt>
    ensures { Works (spec.object_of value place) heap.old result heap.new }
{
    match value {
        Value::Undefined => new_object(alloc, heap, place),
        Value::Null => new_object(alloc, heap, place),
        Value::Bool(_) => left_out(alloc, place),
        Value::Number(_) => left_out(alloc, place),
        Value::Text(_) => left_out(alloc, place),
        Value::Object(object) => Ok(Value::Object(object)),
    }
}

fn new_object(alloc: Global, heap: &mut Heap, place: Place) -> Result<Value, Halt>
    ensures { Works (spec.new_object place) heap.old result heap.new }
{
    let object = make_by(alloc, heap, Kind::Plain, BuiltIn::ObjectPrototype, place)?;
    Ok(Value::Object(object))
}

/// The object of a primitive value ends the run.
fn left_out(alloc: Global, place: Place) -> Result<Value, Halt>
    ensures { Tests (unsupported (codes "Object") place) result }
{
    let name = Text::from_latin_1(alloc, b"Object")?;
    Err(Halt::LeftOut { name, place })
}

/// `Object.keys`: the names that an object lists, as an array (ECMA-262 5.1, section 15.2.3.14).
pub fn keys_value(
    alloc: Global,
    heap: &mut Heap,
    value: &Value,
    place: Place,
) -> Result<Value, Halt>
    ensures { Works (spec.keys_value value.now place) heap.old result heap.new }
{
    match value {
        Value::Undefined => throw_type_error(alloc, heap, b"not an object", place),
        Value::Null => throw_type_error(alloc, heap, b"not an object", place),
        Value::Bool(_) => throw_type_error(alloc, heap, b"not an object", place),
        Value::Number(_) => throw_type_error(alloc, heap, b"not an object", place),
        Value::Text(_) => throw_type_error(alloc, heap, b"not an object", place),
        Value::Object(object) => {
            let keys = heap.own_keys(alloc, *object)?;
            give_texts(alloc, heap, keys.as_slice(), place)
        }
    }
}

/// `Object.prototype.hasOwnProperty`, of the receiver and the name that follows it (ECMA-262 5.1, section 15.2.4.5).
pub fn own_property(
    alloc: Global,
    heap: &Heap,
    values: &[Value],
    place: Place,
) -> Result<Value, Halt>
    ensures { Works (spec.has_own (handed.argument 0 values.now) (text_of (handed.argument 1 values.now)) place) heap.now result heap.now }
{
    let receiver = argument(alloc, values, 0)?;
    let name = to_text(alloc, &argument(alloc, values, 1)?)?;
    has_own(alloc, heap, &receiver, &name, place)
}

/// Whether a value has a property of its own of this name; a mark ends the run.
fn has_own(
    alloc: Global,
    heap: &Heap,
    value: &Value,
    name: &Text,
    place: Place,
) -> Result<Value, Halt>
    ensures { Works (spec.has_own value.now name.now place) heap.now result heap.now }
{
    match value {
        Value::Undefined => Ok(Value::Bool(false)),
        Value::Null => Ok(Value::Bool(false)),
        Value::Bool(_) => Ok(Value::Bool(false)),
        Value::Number(_) => Ok(Value::Bool(false)),
        Value::Text(_) => Ok(Value::Bool(own_of(alloc, value, name)?.is_some())),
        Value::Object(object) => is_there(heap.get_own(alloc, *object, name)?, place),
    }
}

/// Whether something was found; a mark ends the run.
fn is_there(found: Found, place: Place) -> Result<Value, Halt>
    ensures { Tests (is_there found place) result }
{
    match found {
        Found::Absent => Ok(Value::Bool(false)),
        Found::Value(_) => Ok(Value::Bool(true)),
        Found::LeftOut(name) => Err(Halt::LeftOut { name, place }),
    }
}

/// `Object.prototype.toString`: the class of a value as a text (ECMA-262 5.1, section 15.2.4.2).
pub fn object_text(
    alloc: Global,
    heap: &mut Heap,
    value: &Value,
    place: Place,
) -> Result<Value, Halt>
    ensures { Works (class_given value.now place) heap.old result heap.new }
{
    let class = Text::from_latin_1(alloc, class_in(heap, value))?;
    counted(heap, Value::Text(class), place)
}

fn class_in(heap: &Heap, value: &Value) -> &'static [u8]
    ensures { result.now ≡ spec.class_in heap.now value.now }
{
    match value {
        Value::Undefined => b"[object Undefined]",
        Value::Null => b"[object Null]",
        Value::Bool(_) => b"[object Boolean]",
        Value::Number(_) => b"[object Number]",
        Value::Text(_) => b"[object String]",
        Value::Object(object) => class_of(heap.kind(*object)),
    }
}

/// The class of an object of this kind.
pub fn class_of(kind: Kind) -> &'static [u8]
    ensures { result.now ≡ spec.class_of_kind kind }
{
    match kind {
        Kind::Plain => b"[object Object]",
        Kind::Array => b"[object Array]",
        Kind::Function(_, _) => b"[object Function]",
        Kind::Native(_) => b"[object Function]",
        Kind::Error => b"[object Error]",
        Kind::Pattern(_) => b"[object RegExp]",
    }
}
