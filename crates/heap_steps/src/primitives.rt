// What is made of primitive values (ECMA-262 5.1, sections 9.3, 9.5, 11.3 and 11.5 to 11.10).
ghost use Rattle.std.specs.Prelude.{◌≡◌};
ghost use Rattle.js_convert.specs.Operators.{operator_value};
ghost use Rattle.js_evaluation.specs.Conversions as spec;
ghost use Rattle.js_evaluation.specs.Conversions.{Call};
ghost use Rattle.js_evaluation.specs.Handed.{gives, gives_text};
ghost use Rattle.heap_steps.specs.Works.{Tests, Works, operator_refusal};

use crate::Halt;
use crate::making::spend;
use heap_values::Value;
use js_convert::{ConvertAnswer, Numeric, binary};
use js_evaluation::FaultCode;
use js_tree::{BinaryOp, Place, UpdateOp};
use object_heap::Heap;
use std::alloc::Global;
use utf16_text::Text;
use whole_number::{Whole, WholeAnswer};

/// The number that a primitive value is.
pub fn number_or_fault(numeric: Numeric, place: Place) -> Result<Whole, Halt>
    ensures { (call : Call) → Tests (spec.number_or_fault call numeric place) result }
{
    let code = match numeric {
        Numeric::Whole(number) => return Ok(number),
        Numeric::NotANumber => FaultCode::NotANumber,
        Numeric::Fraction => FaultCode::Fraction,
        Numeric::Range => FaultCode::NumberRange,
    };
    Err(Halt::Fault { code, place })
}

/// The number in 32 bits: not-a-number is 0 (ECMA-262 5.1, section 9.5).
pub fn bits_or_fault(numeric: Numeric, place: Place) -> Result<i32, Halt>
    ensures { (call : Call) → Tests (spec.bits_or_fault call numeric place) result }
{
    let code = match numeric {
        Numeric::Whole(number) => return Ok(number.to_int32()),
        Numeric::NotANumber => return Ok(0),
        Numeric::Fraction => FaultCode::Fraction,
        Numeric::Range => FaultCode::NumberRange,
    };
    Err(Halt::Fault { code, place })
}

/// One more or one less (ECMA-262 5.1, sections 11.3, 11.4.4 and 11.4.5).
pub fn stepped(op: UpdateOp, number: Whole, place: Place) -> Result<Whole, Halt>
    ensures { (call : Call) → Tests (spec.stepped call op number place) result }
{
    let one = Whole::from(1_u32);
    match op {
        UpdateOp::Increment => whole_or_fault(number.add(one), place),
        UpdateOp::Decrement => whole_or_fault(number.sub(one), place),
    }
}

fn whole_or_fault(number: Result<Whole, WholeAnswer>, place: Place) -> Result<Whole, Halt>
    ensures { (call : Call) → Tests (spec.whole_or_fault call number place) result }
{
    let code = match number {
        Ok(number) => return Ok(number),
        Err(WholeAnswer::Range) => FaultCode::NumberRange,
        Err(WholeAnswer::Fraction) => FaultCode::Fraction,
        Err(WholeAnswer::DivisionByZero) => FaultCode::DivisionByZero,
    };
    Err(Halt::Fault { code, place })
}

/// The value of an operator on two primitive values; a text that it makes is counted.
pub fn operate(
    alloc: Global,
    heap: &mut Heap,
    op: BinaryOp,
    a: &Value,
    b: &Value,
    place: Place,
) -> Result<Value, Halt>
    ensures { (call : Call) → Works (spec.operated call (operator_value op a.now b.now) place) heap.old result heap.new }
{
    match binary(alloc, op, a, b) {
        Ok(value) => counted(heap, value, place),
        Err(answer) => Err(unconverted(answer, place)),
    }
}

/// A value that an operator or a native gives: a text is counted.
pub fn counted(heap: &mut Heap, value: Value, place: Place) -> Result<Value, Halt>
    ensures { Works (gives value place) heap.old result heap.new }
{
    match value {
        Value::Text(text) => counted_text(heap, text, place),
        value => Ok(value),
    }
}

fn counted_text(heap: &mut Heap, text: Text, place: Place) -> Result<Value, Halt>
    ensures { Works (gives_text text place) heap.old result heap.new }
{
    spend(heap, &text, place)?;
    Ok(Value::Text(text))
}

/// What a refusal of a conversion comes to.
fn unconverted(answer: ConvertAnswer, place: Place) -> Halt
    ensures { result ≡ operator_refusal answer place }
{
    let code = match answer {
        ConvertAnswer::NumberRange => FaultCode::NumberRange,
        ConvertAnswer::Fraction => FaultCode::Fraction,
        ConvertAnswer::NotANumber => FaultCode::NotANumber,
        ConvertAnswer::DivisionByZero => FaultCode::DivisionByZero,
        ConvertAnswer::Memory => return Halt::Memory,
    };
    Halt::Fault { code, place }
}
