// Texts (ECMA-262 5.1, section 15.5).
ghost use Rattle.std.specs.Prelude.{◌≡◌, ◌∷◌, IfOk, map};
ghost use Rattle.js_convert.specs.Texts.{text_of};
ghost use Rattle.js_evaluation.specs.Handed.{gives_text};
ghost use Rattle.js_evaluation.specs.NativeWork as spec;
ghost use Rattle.heap_steps.specs.Works.{Works};

use crate::lists::give_texts;
use heap_steps::{Halt, counted, test_text};
use heap_values::Value;
use js_convert::to_text;
use js_evaluation::FaultCode;
use js_tree::Place;
use object_heap::Heap;
use std::alloc::Global;
use text_builtins::{TextArg, TextMethod, TextResult, call_text};
use utf16_text::{List, Memory, Text};

/// A method of a text, which is the first value; each text of a run is short enough.
pub fn text_work(
    alloc: Global,
    heap: &mut Heap,
    method: TextMethod,
    values: &[Value],
    place: Place,
) -> Result<Value, Halt>
    ensures { Works (spec.text_work method values.now place) heap.old result heap.new }
{
    match values {
        [] => Ok(Value::Undefined),
        [receiver, arguments @ ..] => method_on(alloc, heap, method, receiver, arguments, place),
    }
}

fn method_on(
    alloc: Global,
    heap: &mut Heap,
    method: TextMethod,
    receiver: &Value,
    arguments: &[Value],
    place: Place,
) -> Result<Value, Halt>
    ensures { Works (spec.text_work method (receiver.now ∷ arguments.now) place) heap.old result heap.new }
{
    match receiver {
        Value::Undefined => Ok(Value::Undefined),
        Value::Null => Ok(Value::Undefined),
        Value::Bool(_) => Ok(Value::Undefined),
        Value::Number(_) => Ok(Value::Undefined),
        Value::Text(text) => method_of(alloc, heap, method, text, arguments, place),
        Value::Object(_) => Ok(Value::Undefined),
    }
}

fn method_of(
    alloc: Global,
    heap: &mut Heap,
    method: TextMethod,
    text: &Text,
    arguments: &[Value],
    place: Place,
) -> Result<Value, Halt>
    ensures { Works (spec.text_work method (Value.Text text.now ∷ arguments.now) place) heap.old result heap.new }
{
    test_text(text, place)?;
    let arguments = text_arguments(alloc, arguments)?;
    let end = call_text(alloc, method, text, arguments.as_slice())?;
    text_end(alloc, heap, end, place)
}

/// The values as arguments of a method of texts.
fn text_arguments(alloc: Global, values: &[Value]) -> Result<List<TextArg>, Memory>
    ensures { IfOk result (λ arguments. arguments ≡ map spec.as_text_arg values.now) }
{
    let mut arguments = List::new(alloc);
    let mut left = values;
    while let [value, rest @ ..] = left {
        arguments.push(alloc, as_text_arg(alloc, value)?)?;
        left = rest;
    }
    Ok(arguments)
}

fn as_text_arg(alloc: Global, value: &Value) -> Result<TextArg, Memory>
    ensures { IfOk result (λ argument. argument ≡ spec.as_text_arg value.now) }
{
    match value {
        Value::Text(text) => Ok(TextArg::Text(text.copy(alloc)?)),
        Value::Number(number) => Ok(TextArg::Number(*number)),
        _ => Ok(TextArg::Absent),
    }
}

/// What a method of texts gives: texts that it makes are counted.
fn text_end(alloc: Global, heap: &mut Heap, end: TextResult, place: Place) -> Result<Value, Halt>
    ensures { Works (spec.text_end end place) heap.old result heap.new }
{
    let code = match end {
        TextResult::Text(text) => return counted(heap, Value::Text(text), place),
        TextResult::Texts(texts) => return give_texts(alloc, heap, texts.as_slice(), place),
        TextResult::Number(number) => return Ok(Value::Number(number)),
        TextResult::NotANumber => FaultCode::NotANumber,
        TextResult::TooLong => FaultCode::StringTooLong,
    };
    Err(Halt::Fault { code, place })
}

/// `String`: the text of its argument, and an empty one without (ECMA-262 5.1, section 15.5.1.1).
pub fn string_of(
    alloc: Global,
    heap: &mut Heap,
    values: &[Value],
    place: Place,
) -> Result<Value, Halt>
    ensures { Works (spec.string_of values.now place) heap.old result heap.new }
{
    let text = match values {
        [] => Value::Text(Text::from_latin_1(alloc, b"")?),
        [value, ..] => value.copy(alloc)?,
    };
    counted(heap, text, place)
}

/// `String.fromCharCode`: the text of the units that numbers are (ECMA-262 5.1, section 15.5.3.2).
pub fn text_of_units(
    alloc: Global,
    heap: &mut Heap,
    values: &[Value],
    place: Place,
) -> Result<Value, Halt>
    ensures { Works (gives_text (map spec.unit_of values.now) place) heap.old result heap.new }
{
    let text = Text::from_vec(units_of(alloc, values)?)?;
    counted(heap, Value::Text(text), place)
}

fn units_of(alloc: Global, values: &[Value]) -> Result<Vec<u16>, Memory>
    ensures { IfOk result (λ units. units.items ≡ map spec.unit_of values.now) }
{
    let mut units = Vec::new(alloc);
    let mut left = values;
    while let [value, rest @ ..] = left {
        units.push(unit_of(value))?;
        left = rest;
    }
    Ok(units)
}

/// The unit that a number is: modulo 2^16 (ECMA-262 5.1, section 9.7).
fn unit_of(value: &Value) -> u16
    ensures { result ≡ spec.unit_of value.now }
{
    match value {
        Value::Number(number) => (number.to_uint32() % 65536) as u16,
        _ => 0,
    }
}

/// Gives the text of a value.
pub fn give_text_of(
    alloc: Global,
    heap: &mut Heap,
    value: &Value,
    place: Place,
) -> Result<Value, Halt>
    ensures { Works (gives_text (text_of value.now) place) heap.old result heap.new }
{
    let text = to_text(alloc, value)?;
    counted(heap, Value::Text(text), place)
}
