// Arrays (ECMA-262 5.1, section 15.4).
ghost use Rattle.std.specs.Prelude.{◌≡◌, ◌∷◌};
ghost use Rattle.js_evaluation.specs.NativeWork as spec;
ghost use Rattle.heap_steps.specs.Works.{Works};
ghost use Rattle.js_natives.specs.Given.{length_in, method_given, sized_given};

use crate::lists::array_of;
use array_builtins::{ArrayMethod, call_array};
use heap_steps::{Halt, counted, make_by, put_on, refused};
use heap_values::{BuiltIn, Kind, ObjectId, Value};
use js_tree::Place;
use object_heap::Heap;
use std::alloc::Global;
use utf16_text::Text;
use whole_number::Whole;

/// `Array`: an array of these values; a number alone is the length of the array (ECMA-262 5.1, sections 15.4.1 and
/// 15.4.2).
pub fn array_made(
    alloc: Global,
    heap: &mut Heap,
    values: &[Value],
    place: Place,
) -> Result<Value, Halt>
    ensures { Works (spec.array_made values.now place) heap.old result heap.new }
{
    match length_in(values) {
        Some(length) => array_of_length(alloc, heap, length, place),
        None => array_of(alloc, heap, values, place),
    }
}

/// The length that a number alone is.
fn length_in(values: &[Value]) -> Option<Whole>
    ensures { result ≡ length_in values.now }
{
    match values {
        [Value::Number(length)] => Some(*length),
        _ => None,
    }
}

fn array_of_length(
    alloc: Global,
    heap: &mut Heap,
    length: Whole,
    place: Place,
) -> Result<Value, Halt>
    ensures { Works (sized_given length place) heap.old result heap.new }
{
    let array = make_by(alloc, heap, Kind::Array, BuiltIn::ArrayPrototype, place)?;
    let name = Text::from_latin_1(alloc, b"length")?;
    put_on(alloc, heap, array, &name, Value::Number(length), place)?;
    Ok(Value::Object(array))
}

/// Whether a value is an array (ECMA-262 5.1, section 15.4.3.2).
pub fn is_array(heap: &Heap, value: &Value) -> bool
    ensures { result ≡ spec.is_array heap.now value.now }
{
    match value {
        Value::Undefined => false,
        Value::Null => false,
        Value::Bool(_) => false,
        Value::Number(_) => false,
        Value::Text(_) => false,
        Value::Object(object) => is_array_kind(heap.kind(*object)),
    }
}

fn is_array_kind(kind: Kind) -> bool
    ensures { result ≡ spec.is_array_kind kind }
{
    matches!(kind, Kind::Array)
}

/// A method of an array, which is the first value.
pub fn array_work(
    alloc: Global,
    heap: &mut Heap,
    method: ArrayMethod,
    values: &[Value],
    place: Place,
) -> Result<Value, Halt>
    ensures { Works (spec.array_work method values.now place) heap.old result heap.new }
{
    match values {
        [] => Ok(Value::Undefined),
        [receiver, arguments @ ..] => method_on(alloc, heap, method, receiver, arguments, place),
    }
}

fn method_on(
    alloc: Global,
    heap: &mut Heap,
    method: ArrayMethod,
    receiver: &Value,
    arguments: &[Value],
    place: Place,
) -> Result<Value, Halt>
    ensures { Works (spec.array_work method (receiver.now ∷ arguments.now) place) heap.old result heap.new }
{
    match receiver {
        Value::Undefined => Ok(Value::Undefined),
        Value::Null => Ok(Value::Undefined),
        Value::Bool(_) => Ok(Value::Undefined),
        Value::Number(_) => Ok(Value::Undefined),
        Value::Text(_) => Ok(Value::Undefined),
        Value::Object(array) => method_of(alloc, heap, method, *array, arguments, place),
    }
}

fn method_of(
    alloc: Global,
    heap: &mut Heap,
    method: ArrayMethod,
    array: ObjectId,
    arguments: &[Value],
    place: Place,
) -> Result<Value, Halt>
    ensures { Works (method_given method array arguments.now place) heap.old result heap.new }
{
    match call_array(alloc, heap, method, array, arguments) {
        Ok(value) => counted(heap, value, place),
        Err(answer) => Err(refused(answer, place)),
    }
}
