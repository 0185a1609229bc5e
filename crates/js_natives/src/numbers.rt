// Numbers (ECMA-262 5.1, sections 15.7, 15.8 and 15.1.2).
ghost use Rattle.std.specs.Prelude.{◌≡◌, IfOk, map};
ghost use Rattle.js_evaluation.specs.NativeWork as spec;
ghost use Rattle.heap_steps.specs.Works.{Tests, Works};

use heap_steps::{Halt, counted, throw_error};
use heap_values::{BuiltIn, Value};
use js_evaluation::FaultCode;
use js_tree::Place;
use number_builtins::{NumberArg, NumberMethod, NumberResult, call_number};
use object_heap::Heap;
use std::alloc::Global;
use utf16_text::{List, Memory, Text};
use whole_number::Whole;

/// `Number`: the number of its argument, and 0 without (ECMA-262 5.1, section 15.7.1.1).
pub fn number_of(values: &[Value], place: Place) -> Result<Value, Halt>
    ensures { Tests (spec.number_of values.now place) result }
{
    match values {
        [] => Ok(Value::Number(Whole::from(0_u32))),
        [Value::Number(number), ..] => Ok(Value::Number(*number)),
        _ => Err(Halt::Fault {
            code: FaultCode::NotANumber,
            place,
        }),
    }
}

pub fn is_number(value: &Value) -> bool
    ensures { result ≡ spec.is_number value.now }
{
    matches!(value, Value::Number(_))
}

/// A function of numbers.
pub fn number_work(
    alloc: Global,
    heap: &mut Heap,
    method: NumberMethod,
    values: &[Value],
    place: Place,
) -> Result<Value, Halt>
    ensures { Works (spec.number_work method values.now place) heap.old result heap.new }
{
    let arguments = number_arguments(alloc, values)?;
    let end = call_number(alloc, method, arguments.as_slice())?;
    number_end(alloc, heap, end, place)
}

/// The values as arguments of a function of numbers.
fn number_arguments(alloc: Global, values: &[Value]) -> Result<List<NumberArg>, Memory>
    ensures { IfOk result (λ arguments. arguments ≡ map spec.as_number_arg values.now) }
{
    let mut arguments = List::new(alloc);
    let mut left = values;
    while let [value, rest @ ..] = left {
        arguments.push(alloc, as_number_arg(alloc, value)?)?;
        left = rest;
    }
    Ok(arguments)
}

fn as_number_arg(alloc: Global, value: &Value) -> Result<NumberArg, Memory>
    ensures { IfOk result (λ argument. argument ≡ spec.as_number_arg value.now) }
{
    match value {
        Value::Text(text) => Ok(NumberArg::Text(text.copy(alloc)?)),
        Value::Number(number) => Ok(NumberArg::Number(*number)),
        _ => Ok(NumberArg::Absent),
    }
}

/// What a function of numbers gives: a text that it makes is counted, and a radix that it doesn't know throws.
fn number_end(
    alloc: Global,
    heap: &mut Heap,
    end: NumberResult,
    place: Place,
) -> Result<Value, Halt>
    ensures { Works (spec.number_end end place) heap.old result heap.new }
{
    let code = match end {
        NumberResult::Number(number) => return Ok(Value::Number(number)),
        NumberResult::Text(text) => return counted(heap, Value::Text(text), place),
        NumberResult::BadRadix => return throw_bad_radix(alloc, heap, place),
        NumberResult::Range => FaultCode::NumberRange,
        NumberResult::NotANumber => FaultCode::NotANumber,
    };
    Err(Halt::Fault { code, place })
}

fn throw_bad_radix(alloc: Global, heap: &mut Heap, place: Place) -> Result<Value, Halt>
    ensures { Works (spec.number_end NumberResult.BadRadix place) heap.old result heap.new }
{
    let message = Text::from_latin_1(alloc, b"invalid radix")?;
    throw_error(alloc, heap, BuiltIn::RangeErrorPrototype, message, place)
}
