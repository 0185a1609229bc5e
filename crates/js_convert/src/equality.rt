// Equality of values.
ghost use Rattle.std.specs.Prelude.{◌≡◌};
ghost use Rattle.js_convert.specs.Operators.{
  strictly_equal,
  loosely_equal,
  is_nothing,
  is_object,
  is_same_type,
  equal_sides,
};

use crate::ConvertAnswer;
use crate::operands::both_sides;
use heap_values::Value;
use whole_number::Whole;

/// Whether both have the same type and the same value, objects by identity (ECMA-262 5.1, section 11.9.6).
pub fn strict_equals(a: &Value, b: &Value) -> bool
    ensures { result ≡ strictly_equal a.now b.now }
{
    match (a, b) {
        (Value::Undefined, Value::Undefined) => true,
        (Value::Null, Value::Null) => true,
        (Value::Bool(x), Value::Bool(y)) => *x == *y,
        (Value::Number(x), Value::Number(y)) => x.get() == y.get(),
        (Value::Text(x), Value::Text(y)) => x.units() == y.units(),
        (Value::Object(x), Value::Object(y)) => x.0 == y.0,
        _ => false,
    }
}

/// Equality that converts (ECMA-262 5.1, section 11.9.3). NumberRange and Fraction come as for `less`, where two values
/// of different primitive types other than undefined and null are compared.
pub fn loose_equals(a: &Value, b: &Value) -> Result<bool, ConvertAnswer>
    ensures { result ≡ loosely_equal a.now b.now }
{
    if is_nothing(a) || is_nothing(b) {
        return Ok(is_nothing(a) && is_nothing(b));
    }
    if is_same_type(a, b) {
        return Ok(strict_equals(a, b));
    }
    if is_object(a) || is_object(b) {
        return Ok(false);
    }
    let (x, y) = both_sides(a, b)?;
    Ok(are_equal(x, y))
}

fn is_nothing(value: &Value) -> bool
    ensures { result ≡ is_nothing value.now }
{
    matches!(value, Value::Undefined | Value::Null)
}

fn is_object(value: &Value) -> bool
    ensures { result ≡ is_object value.now }
{
    matches!(value, Value::Object(_))
}

fn is_same_type(a: &Value, b: &Value) -> bool
    ensures { result ≡ is_same_type a.now b.now }
{
    match (a, b) {
        (Value::Bool(_), Value::Bool(_)) => true,
        (Value::Number(_), Value::Number(_)) => true,
        (Value::Text(_), Value::Text(_)) => true,
        (Value::Object(_), Value::Object(_)) => true,
        _ => false,
    }
}

fn are_equal(x: Option<Whole>, y: Option<Whole>) -> bool
    ensures { result ≡ equal_sides x y }
{
    match (x, y) {
        (Some(m), Some(n)) => m.get() == n.get(),
        _ => false,
    }
}
