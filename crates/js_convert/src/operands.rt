// Two operands, and the first refusal of the two.
ghost use Rattle.std.specs.Prelude.{◌≡◌, Ok};
ghost use Rattle.js_convert.specs.Operators.{
  is_range,
  is_fraction,
  is_text as is_text_value,
  unless_refused,
  numbers_of,
  both_whole,
  bit_pair_of,
  bits_of,
  sides_of,
  side_of,
};

use crate::{ConvertAnswer, Numeric, to_number};
use heap_values::Value;
use whole_number::Whole;

pub(crate) fn is_text(value: &Value) -> bool
    ensures { result ≡ is_text_value value.now }
{
    matches!(value, Value::Text(_))
}

fn is_range(number: &Numeric) -> bool
    ensures { result ≡ is_range number.now }
{
    matches!(number, Numeric::Range)
}

fn is_fraction(number: &Numeric) -> bool
    ensures { result ≡ is_fraction number.now }
{
    matches!(number, Numeric::Fraction)
}

// Range on any side comes first, then Fraction.
fn check(a: &Numeric, b: &Numeric) -> Result<(), ConvertAnswer>
    ensures { result ≡ unless_refused a.now b.now (Ok tt) }
{
    if is_range(a) || is_range(b) {
        return Err(ConvertAnswer::NumberRange);
    }
    if is_fraction(a) || is_fraction(b) {
        return Err(ConvertAnswer::Fraction);
    }
    Ok(())
}

fn both_whole(a: &Numeric, b: &Numeric) -> Result<(Whole, Whole), ConvertAnswer>
    ensures { result ≡ both_whole a.now b.now }
{
    match (a, b) {
        (Numeric::Whole(x), Numeric::Whole(y)) => Ok((*x, *y)),
        _ => Err(ConvertAnswer::NotANumber),
    }
}

/// The operands of arithmetic.
pub(crate) fn both_numbers(a: &Value, b: &Value) -> Result<(Whole, Whole), ConvertAnswer>
    ensures { result ≡ numbers_of a.now b.now }
{
    let x = to_number(a);
    let y = to_number(b);
    check(&x, &y)?;
    both_whole(&x, &y)
}

fn bits(number: &Numeric) -> u32
    ensures { result ≡ bits_of number.now }
{
    match number {
        Numeric::Whole(whole) => whole.to_uint32(),
        _ => 0,
    }
}

/// The operands' 32 bits; not-a-number has none.
pub(crate) fn both_bits(a: &Value, b: &Value) -> Result<(u32, u32), ConvertAnswer>
    ensures { result ≡ bit_pair_of a.now b.now }
{
    let x = to_number(a);
    let y = to_number(b);
    check(&x, &y)?;
    Ok((bits(&x), bits(&y)))
}

fn side(number: &Numeric) -> Option<Whole>
    ensures { result ≡ side_of number.now }
{
    match number {
        Numeric::Whole(whole) => Some(*whole),
        _ => None,
    }
}

/// The numbers that are compared; none for not-a-number.
pub(crate) fn both_sides(
    a: &Value,
    b: &Value,
) -> Result<(Option<Whole>, Option<Whole>), ConvertAnswer>
    ensures { result ≡ sides_of a.now b.now }
{
    let x = to_number(a);
    let y = to_number(b);
    check(&x, &y)?;
    Ok((side(&x), side(&y)))
}
