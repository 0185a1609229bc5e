// Order of values.
ghost use Rattle.std.specs.Prelude.{◌≡◌};
ghost use Rattle.js_convert.specs.Operators.{less_of, less_sides};

use crate::ConvertAnswer;
use crate::operands::both_sides;
use heap_values::Value;
use whole_number::Whole;

/// Whether `a` is less than `b` (ECMA-262 5.1, section 11.8.5): two texts by units, other primitive values as numbers.
/// None where not both are texts and a side is not-a-number. NumberRange comes where a side is too large or infinite,
/// else Fraction where a side is a numeral with a point or an exponent.
pub fn less(a: &Value, b: &Value) -> Result<Option<bool>, ConvertAnswer>
    ensures { result ≡ less_of a.now b.now }
{
    if let (Value::Text(s), Value::Text(t)) = (a, b) {
        return Ok(Some(s.compare(t).is_lt()));
    }
    let (x, y) = both_sides(a, b)?;
    Ok(less_of_sides(x, y))
}

fn less_of_sides(x: Option<Whole>, y: Option<Whole>) -> Option<bool>
    ensures { result ≡ less_sides x y }
{
    match (x, y) {
        (Some(m), Some(n)) => Some(m.get() < n.get()),
        _ => None,
    }
}
