// Values as numbers.
ghost use Rattle.std.specs.Prelude.{◌≡◌, ◌≤◌};
ghost use Rattle.utf16_text.specs.Digits.{value_of};
ghost use Rattle.js_convert.specs.Numeric.{
  numeric_of,
  truth_of,
  text_numeric,
  trimmed_numeric,
  hex_numeric,
  decimal_numeric,
  unsigned_numeric,
  negated,
  bounded,
  is_fraction_text,
  is_exponent,
};

use crate::digits::{are_digits, are_hexadecimal, behind_digits};
use heap_values::Value;
use utf16_text::{Text, trimmed};
use whole_number::Whole;

/// What a value is as a number.
#[derive(Clone, Copy, Debug, PartialEq, Eq)]
pub enum Numeric {
    Whole(Whole),
    NotANumber,
    /// A decimal numeral with a point or an exponent.
    Fraction,
    /// Over 2^53 - 1 in size, or infinite.
    Range,
}

/// `Infinity`.
const INFINITY: [u16; 8] = [73, 110, 102, 105, 110, 105, 116, 121];

/// The truth of a value (ECMA-262 5.1, section 9.2).
pub fn to_boolean(value: &Value) -> bool
    ensures { result ≡ truth_of value.now }
{
    match value {
        Value::Undefined | Value::Null => false,
        Value::Bool(truth) => *truth,
        Value::Number(number) => number.get() != 0,
        Value::Text(text) => !text.is_empty(),
        Value::Object(_) => true,
    }
}

/// The number of a primitive value (ECMA-262 5.1, section 9.3). An object is not a number.
pub fn to_number(value: &Value) -> Numeric
    ensures { result ≡ numeric_of value.now }
{
    match value {
        Value::Undefined => Numeric::NotANumber,
        Value::Null => Numeric::Whole(Whole::from(0_u32)),
        Value::Bool(truth) => Numeric::Whole(Whole::from(u32::from(*truth))),
        Value::Number(number) => Numeric::Whole(*number),
        Value::Text(text) => text_to_number(text),
        Value::Object(_) => Numeric::NotANumber,
    }
}

// The number of a text (ECMA-262 5.1, section 9.3.1).
fn text_to_number(text: &Text) -> Numeric
    ensures { result ≡ text_numeric text.now }
{
    trimmed_to_number(trimmed(text.units()))
}

fn trimmed_to_number(units: &[u16]) -> Numeric
    ensures { result ≡ trimmed_numeric units.now }
{
    match units {
        [] => Numeric::Whole(Whole::from(0_u32)),
        [48, 120 | 88, digits @ ..] => hex_number(digits),
        _ => decimal_number(units),
    }
}

fn hex_number(digits: &[u16]) -> Numeric
    ensures { result ≡ hex_numeric digits.now }
{
    if !are_hexadecimal(digits) {
        return Numeric::NotANumber;
    }
    number_of(16, digits)
}

fn decimal_number(units: &[u16]) -> Numeric
    ensures { result ≡ decimal_numeric units.now }
{
    match units {
        [] => Numeric::NotANumber,
        [45, rest @ ..] => negate(unsigned_number(rest)),
        [43, rest @ ..] => unsigned_number(rest),
        _ => unsigned_number(units),
    }
}

fn negate(number: Numeric) -> Numeric
    ensures { result ≡ negated number }
{
    match number {
        Numeric::Whole(whole) => match Whole::new(-whole.get()) {
            Some(negative) => Numeric::Whole(negative),
            None => Numeric::Range,
        },
        other => other,
    }
}

fn unsigned_number(units: &[u16]) -> Numeric
    ensures { result ≡ unsigned_numeric units.now }
{
    if units == INFINITY.as_slice() {
        return Numeric::Range;
    }
    if are_digits(units) {
        return number_of(10, units);
    }
    if is_fraction(units) {
        return Numeric::Fraction;
    }
    Numeric::NotANumber
}

// The number that the digits spell, where it isn't too large.
fn number_of(base: u64, digits: &[u16]) -> Numeric
    requires { base ≤ 36 }
    ensures { result ≡ bounded (value_of base digits.now) }
{
    match Whole::from_digits(base, digits) {
        Some(whole) => Numeric::Whole(whole),
        None => Numeric::Range,
    }
}

// Whether it is a decimal numeral with a point or an exponent.
fn is_fraction(units: &[u16]) -> bool
    ensures { result ≡ is_fraction_text units.now }
{
    let rest = behind_digits(units);
    match rest {
        [46, tail @ ..] => {
            let end = behind_digits(tail);
            (rest.len() < units.len() || end.len() < tail.len())
                && (end.is_empty() || is_exponent(end))
        }
        _ => rest.len() < units.len() && is_exponent(rest),
    }
}

fn is_exponent(units: &[u16]) -> bool
    ensures { result ≡ is_exponent units.now }
{
    match units {
        [101 | 69, 43 | 45, digits @ ..] => are_digits(digits),
        [101 | 69, digits @ ..] => are_digits(digits),
        _ => false,
    }
}
