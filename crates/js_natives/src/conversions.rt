// What becomes of a value that is handed to a built-in function, before it works (ECMA-262 5.1, section 9).
ghost use Rattle.std.specs.Prelude.{◌≡◌, IfOk};
ghost use Rattle.js_convert.specs.Operators as operator;
ghost use Rattle.js_evaluation.specs.Natives as spec;
ghost use Rattle.js_evaluation.specs.Objects as object;
ghost use Rattle.js_convert.specs.Texts.{text_of};
ghost use Rattle.js_frames.specs.Parts.{names_of};
ghost use Rattle.run_trees.specs.Runs.{pure};
ghost use Rattle.heap_steps.specs.Works.{Tests, Works};

use crate::arrays::is_array;
use crate::numbers::is_number;
use crate::patterns::is_pattern;
use heap_steps::{Halt, callable, throw_type_error};
use heap_values::Value;
use js_convert::{Numeric, to_number, to_text};
use js_evaluation::{Conversion, FaultCode, Native};
use js_frames::Methods;
use js_native_table::name_of;
use js_tree::Place;
use object_heap::Heap;
use std::alloc::Global;
use utf16_text::{Memory, Text};
use whole_number::Whole;

/// Tests a value that is handed to a native: a receiver of the wrong kind throws, or ends the run as left out; and so
/// does a function in place of a text that replaces.
pub fn test_handed(
    alloc: Global,
    heap: &mut Heap,
    native: Native,
    conversion: Conversion,
    value: &Value,
    place: Place,
) -> Result<(), Halt>
    ensures { Works (spec.tested native conversion value.now place) heap.old result heap.new }
{
    match conversion {
        Conversion::ThisText => test_receiver(alloc, heap, is_text(value), place),
        Conversion::ThisNumber => test_receiver(alloc, heap, is_number(value), place),
        Conversion::ThisBoolean => test_receiver(alloc, heap, is_boolean(value), place),
        Conversion::ThisArray => test_kept(alloc, is_array(heap, value), native, place),
        Conversion::ThisPattern => {
            let is_right = is_pattern(heap, value);
            test_receiver(alloc, heap, is_right, place)
        }
        Conversion::Pattern => test_kept(alloc, is_pattern(heap, value), native, place),
        Conversion::Replacement => test_kept(alloc, !is_callable(heap, value), native, place),
        Conversion::Kept => Ok(()),
        Conversion::Primitive => Ok(()),
        Conversion::Text => Ok(()),
        Conversion::OptionalText => Ok(()),
        Conversion::Position => Ok(()),
        Conversion::Number => Ok(()),
        Conversion::PatternOrText => Ok(()),
        Conversion::OptionalPatternOrText => Ok(()),
    }
}

/// A receiver that isn't right throws.
fn test_receiver(alloc: Global, heap: &mut Heap, is_right: bool, place: Place) -> Result<(), Halt>
    ensures { Works (spec.unless_wrong is_right place) heap.old result heap.new }
{
    if is_right {
        return Ok(());
    }
    throw_type_error(alloc, heap, b"not an object", place)
}

/// A native that this profile leaves out for the value ends the run.
fn test_kept(alloc: Global, is_in: bool, native: Native, place: Place) -> Result<(), Halt>
    ensures { Tests (spec.unless_left_out is_in native place) result }
{
    if is_in {
        return Ok(());
    }
    let name = Text::from_latin_1(alloc, name_of(native))?;
    Err(Halt::LeftOut { name, place })
}

fn is_text(value: &Value) -> bool
    ensures { result ≡ operator.is_text value.now }
{
    matches!(value, Value::Text(_))
}

fn is_boolean(value: &Value) -> bool
    ensures { result ≡ spec.is_boolean value.now }
{
    matches!(value, Value::Bool(_))
}

/// Whether a value can be called.
fn is_callable(heap: &Heap, value: &Value) -> bool
    ensures { result ≡ object.is_callable heap.now value.now }
{
    callable(heap, value).is_some()
}

/// Whether a value that is handed to a native stays as it is. Any other value becomes a primitive one, and then what
/// `settled` makes of that.
pub fn is_kept(heap: &Heap, conversion: Conversion, value: &Value) -> bool
    ensures { result ≡ spec.is_kept heap.now conversion value.now }
{
    match conversion {
        Conversion::Kept => true,
        Conversion::ThisText => true,
        Conversion::ThisNumber => true,
        Conversion::ThisBoolean => true,
        Conversion::ThisArray => true,
        Conversion::ThisPattern => true,
        Conversion::Pattern => true,
        Conversion::OptionalText => matches!(value, Value::Undefined),
        Conversion::Position => matches!(value, Value::Undefined),
        Conversion::PatternOrText => is_pattern(heap, value),
        Conversion::OptionalPatternOrText => {
            matches!(value, Value::Undefined) || is_pattern(heap, value)
        }
        Conversion::Primitive => false,
        Conversion::Text => false,
        Conversion::Replacement => false,
        Conversion::Number => false,
    }
}

/// The methods that give the primitive value of an object.
pub fn methods_for(conversion: Conversion) -> Methods
    ensures { names_of result ≡ spec.methods_for conversion }
{
    match conversion {
        Conversion::Position => Methods::ForNumber,
        Conversion::Number => Methods::ForNumber,
        _ => Methods::ForText,
    }
}

/// What becomes of a primitive value.
pub fn settled(
    alloc: Global,
    conversion: Conversion,
    value: Value,
    place: Place,
) -> Result<Value, Halt>
    ensures { Tests (spec.settled conversion value place) result }
{
    match conversion {
        Conversion::Text => text_settled(alloc, &value),
        Conversion::OptionalText => text_settled(alloc, &value),
        Conversion::Replacement => text_settled(alloc, &value),
        Conversion::PatternOrText => text_settled(alloc, &value),
        Conversion::OptionalPatternOrText => text_settled(alloc, &value),
        Conversion::Position => position_of(to_number(&value), place),
        Conversion::Number => number_or_none(to_number(&value), place),
        Conversion::Kept => Ok(value),
        Conversion::Primitive => Ok(value),
        Conversion::ThisText => Ok(value),
        Conversion::ThisNumber => Ok(value),
        Conversion::ThisBoolean => Ok(value),
        Conversion::ThisArray => Ok(value),
        Conversion::ThisPattern => Ok(value),
        Conversion::Pattern => Ok(value),
    }
}

fn text_settled(alloc: Global, value: &Value) -> Result<Value, Halt>
    ensures { Tests (pure (Value.Text (text_of value.now))) result }
{
    Ok(Value::Text(to_text(alloc, value)?))
}

/// A position: not-a-number is 0.
fn position_of(numeric: Numeric, place: Place) -> Result<Value, Halt>
    ensures { Tests (spec.position_of numeric place) result }
{
    let code = match numeric {
        Numeric::Whole(number) => return Ok(Value::Number(number)),
        Numeric::NotANumber => return Ok(Value::Number(Whole::from(0_u32))),
        Numeric::Fraction => FaultCode::Fraction,
        Numeric::Range => FaultCode::NumberRange,
    };
    Err(Halt::Fault { code, place })
}

/// A number: undefined for not-a-number.
fn number_or_none(numeric: Numeric, place: Place) -> Result<Value, Halt>
    ensures { Tests (spec.number_or_none numeric place) result }
{
    let code = match numeric {
        Numeric::Whole(number) => return Ok(Value::Number(number)),
        Numeric::NotANumber => return Ok(Value::Undefined),
        Numeric::Fraction => FaultCode::Fraction,
        Numeric::Range => FaultCode::NumberRange,
    };
    Err(Halt::Fault { code, place })
}

/// What stands between the elements that are joined: a comma where nothing is said (ECMA-262 5.1, section 15.4.4.5).
pub fn separator_of(alloc: Global, value: &Value) -> Result<Text, Memory>
    ensures { IfOk result (λ t. t ≡ spec.separator_of value.now) }
{
    match value {
        Value::Undefined => Text::from_latin_1(alloc, b","),
        value => to_text(alloc, value),
    }
}
