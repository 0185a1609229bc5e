// Operators and conversions of values.
use crate::values::{refused, values_in, written};
use anyhow::{Context, Result};
use heap_objects::array_index;
use heap_values::{HeapAnswer, Value};
use js_convert::BinaryOp::{
    Add, BitAnd, BitOr, BitXor, Divide, Equal, Greater, GreaterEqual, Less, LessEqual, Multiply,
    NotEqual, Remainder, ShiftLeft, ShiftRight, StrictEqual, StrictNotEqual, Subtract,
    UnsignedShiftRight,
};
use js_convert::{
    BinaryOp, ConvertAnswer, Numeric, binary, less, loose_equals, to_boolean, to_number, to_text,
};
use std::alloc::Global;
use utf16_text::Memory;
use whole_number::Whole;

const OPERATORS: [BinaryOp; 19] = [
    Add,
    BitAnd,
    BitOr,
    BitXor,
    Divide,
    Equal,
    Greater,
    GreaterEqual,
    Less,
    LessEqual,
    Multiply,
    NotEqual,
    Remainder,
    ShiftLeft,
    ShiftRight,
    StrictEqual,
    StrictNotEqual,
    Subtract,
    UnsignedShiftRight,
];

/// What comes of an operator or a conversion.
#[derive(Drop)]
enum Outcome {
    Value(Value),
    Refused(ConvertAnswer),
    /// A text that is no whole number.
    NoNumber(Numeric),
    HeapRefused(HeapAnswer),
}

/// What comes of the operator or the conversion of the first field, of the values of the others.
pub(crate) fn told(alloc: Global, fields: &[&str]) -> Result<String> {
    let (name, values) = fields.split_first().context("a name and values")?;
    let values = values_in(alloc, values)?;
    let outcome = match operator_named(alloc, name)? {
        Some(operator) => operated(alloc, operator, &values),
        None => converted(alloc, name, &values),
    };
    written_outcome(
        alloc,
        &outcome.context("an operator or a conversion of these values")?,
    )
}

fn written_outcome(alloc: Global, outcome: &Outcome) -> Result<String> {
    match outcome {
        Outcome::Value(value) => written(alloc, value),
        Outcome::Refused(answer) => refused(alloc, answer),
        Outcome::HeapRefused(answer) => refused(alloc, answer),
        Outcome::NoNumber(numeric) => Ok(format!(in alloc; "{numeric:?}")?),
    }
}

fn operator_named(alloc: Global, name: &str) -> Result<Option<BinaryOp>> {
    for operator in OPERATORS {
        if format!(in alloc; "{operator:?}")?.as_str() == name {
            return Ok(Some(operator));
        }
    }
    Ok(None)
}

fn operated(alloc: Global, operator: BinaryOp, values: &[Value]) -> Option<Outcome> {
    let [left, right] = values else {
        return None;
    };
    Some(outcome_of(binary(alloc, operator, left, right)))
}

fn outcome_of(given: Result<Value, ConvertAnswer>) -> Outcome {
    match given {
        Ok(value) => Outcome::Value(value),
        Err(answer) => Outcome::Refused(answer),
    }
}

fn converted(alloc: Global, name: &str, values: &[Value]) -> Option<Outcome> {
    match values {
        [] if name == "want of memory" => Some(Outcome::HeapRefused(HeapAnswer::from(Memory))),
        [value] => converted_alone(alloc, name, value),
        [left, right] => compared(name, left, right),
        _ => None,
    }
}

/// Whether values are equal by `==`, or one is less than the other, which is undefined where one is not a number.
fn compared(name: &str, left: &Value, right: &Value) -> Option<Outcome> {
    let truth = match name {
        "is equal" => loose_equals(left, right).map(Some),
        "is less" => less(left, right),
        _ => return None,
    };
    Some(match truth {
        Ok(Some(truth)) => Outcome::Value(Value::Bool(truth)),
        Ok(None) => Outcome::Value(Value::Undefined),
        Err(answer) => Outcome::Refused(answer),
    })
}

fn converted_alone(alloc: Global, name: &str, value: &Value) -> Option<Outcome> {
    match name {
        "number" => Some(number_of(value)),
        "truth" => Some(Outcome::Value(Value::Bool(to_boolean(value)))),
        "text" => to_text(alloc, value)
            .ok()
            .map(|text| Outcome::Value(Value::Text(text))),
        "copy" => value.copy(alloc).ok().map(Outcome::Value),
        "clone" => value.clone().ok().map(Outcome::Value),
        "array index" => index_of(value),
        _ => None,
    }
}

fn number_of(value: &Value) -> Outcome {
    match to_number(value) {
        Numeric::Whole(number) => Outcome::Value(Value::Number(number)),
        numeric => Outcome::NoNumber(numeric),
    }
}

/// The array index that a name is, or undefined.
fn index_of(name: &Value) -> Option<Outcome> {
    let Value::Text(name) = name else {
        return None;
    };
    Some(Outcome::Value(match array_index(name) {
        Some(index) => Value::Number(Whole::from(index)),
        None => Value::Undefined,
    }))
}
