// The operator table.
ghost use Rattle.std.specs.Prelude.{◌≡◌, ◌⊎◌, IfOk, IfErr, Ok, Err};
ghost use Rattle.js_convert.specs.Operators.{operator_value, sum_value, bits_value, less_truth, not_less_truth};
ghost use Rattle.js_convert.specs.declared.answer.ConvertAnswer.TheVariants as answer;
ghost use Rattle.js_tree.specs.declared.operators.BinaryOp.TheVariants as op;

use crate::operands::{both_bits, both_numbers, is_text};
use crate::{BinaryOp, ConvertAnswer, less, loose_equals, strict_equals, to_text};
use heap_values::Value;
use std::alloc::Global;
use whole_number::Whole;

/// The value of a binary operator on primitive values (ECMA-262 5.1, sections 11.5 to 11.10). `||`, `&&`, `instanceof`
/// and `in` look at more than two such values: their callers don't ask for them, and they give undefined here.
///
/// Range on any side is NumberRange; else Fraction on any side, or a quotient that isn't whole, is Fraction; else
/// not-a-number on any side of arithmetic is NotANumber; else a divisor of 0 is DivisionByZero.
pub fn binary(alloc: Global, op: BinaryOp, a: &Value, b: &Value) -> Result<Value, ConvertAnswer>
    ensures ok { IfOk result (λ v. operator_value op a.now b.now ≡ Ok v) }
    ensures err { IfErr result (λ e. (e ≡ answer.Memory) ⊎ (operator_value op a.now b.now ≡ Err e)) }
{
    match op {
        BinaryOp::BitOr => bit_or(a, b),
        BinaryOp::BitXor => bit_xor(a, b),
        BinaryOp::BitAnd => bit_and(a, b),
        BinaryOp::Equal => Ok(Value::Bool(loose_equals(a, b)?)),
        BinaryOp::NotEqual => Ok(Value::Bool(!loose_equals(a, b)?)),
        BinaryOp::StrictEqual => Ok(Value::Bool(strict_equals(a, b))),
        BinaryOp::StrictNotEqual => Ok(Value::Bool(!strict_equals(a, b))),
        BinaryOp::Less => Ok(is_less(less(a, b)?)),
        BinaryOp::Greater => Ok(is_less(less(b, a)?)),
        BinaryOp::LessEqual => Ok(is_not_less(less(b, a)?)),
        BinaryOp::GreaterEqual => Ok(is_not_less(less(a, b)?)),
        BinaryOp::ShiftLeft => shift_left(a, b),
        BinaryOp::ShiftRight => shift_right(a, b),
        BinaryOp::UnsignedShiftRight => unsigned_shift_right(a, b),
        BinaryOp::Add => add(alloc, a, b),
        BinaryOp::Subtract => subtract(a, b),
        BinaryOp::Multiply => multiply(a, b),
        BinaryOp::Divide => divide(a, b),
        BinaryOp::Remainder => remainder(a, b),
        BinaryOp::Or | BinaryOp::And | BinaryOp::InstanceOf | BinaryOp::In => Ok(Value::Undefined),
    }
}

// Joins two texts, where a side is a text; else adds two numbers (ECMA-262 5.1, section 11.6.1).
fn add(alloc: Global, a: &Value, b: &Value) -> Result<Value, ConvertAnswer>
    ensures ok { IfOk result (λ v. sum_value a.now b.now ≡ Ok v) }
    ensures err { IfErr result (λ e. (e ≡ answer.Memory) ⊎ (sum_value a.now b.now ≡ Err e)) }
{
    if is_text(a) || is_text(b) {
        let left = to_text(alloc, a)?;
        let right = to_text(alloc, b)?;
        return Ok(Value::Text(left.concat(alloc, &right)?));
    }
    let (x, y) = both_numbers(a, b)?;
    Ok(Value::Number(x.add(y)?))
}

fn subtract(a: &Value, b: &Value) -> Result<Value, ConvertAnswer>
    ensures { result ≡ operator_value op.Subtract a.now b.now }
{
    let (x, y) = both_numbers(a, b)?;
    Ok(Value::Number(x.sub(y)?))
}

fn multiply(a: &Value, b: &Value) -> Result<Value, ConvertAnswer>
    ensures { result ≡ operator_value op.Multiply a.now b.now }
{
    let (x, y) = both_numbers(a, b)?;
    Ok(Value::Number(x.mul(y)?))
}

fn divide(a: &Value, b: &Value) -> Result<Value, ConvertAnswer>
    ensures { result ≡ operator_value op.Divide a.now b.now }
{
    let (x, y) = both_numbers(a, b)?;
    Ok(Value::Number(x.div(y)?))
}

fn remainder(a: &Value, b: &Value) -> Result<Value, ConvertAnswer>
    ensures { result ≡ operator_value op.Remainder a.now b.now }
{
    let (x, y) = both_numbers(a, b)?;
    Ok(Value::Number(x.rem(y)?))
}

// The bits as a number of signed 32 bits.
fn signed(bits: u32) -> Value
    ensures { result ≡ bits_value bits }
{
    Value::Number(Whole::from(bits.cast_signed()))
}

fn bit_or(a: &Value, b: &Value) -> Result<Value, ConvertAnswer>
    ensures { result ≡ operator_value op.BitOr a.now b.now }
{
    let (x, y) = both_bits(a, b)?;
    Ok(signed(x | y))
}

fn bit_xor(a: &Value, b: &Value) -> Result<Value, ConvertAnswer>
    ensures { result ≡ operator_value op.BitXor a.now b.now }
{
    let (x, y) = both_bits(a, b)?;
    Ok(signed(x ^ y))
}

fn bit_and(a: &Value, b: &Value) -> Result<Value, ConvertAnswer>
    ensures { result ≡ operator_value op.BitAnd a.now b.now }
{
    let (x, y) = both_bits(a, b)?;
    Ok(signed(x & y))
}

fn shift_left(a: &Value, b: &Value) -> Result<Value, ConvertAnswer>
    ensures { result ≡ operator_value op.ShiftLeft a.now b.now }
{
    let (x, y) = both_bits(a, b)?;
    Ok(signed(x.wrapping_shl(y % 32)))
}

fn shift_right(a: &Value, b: &Value) -> Result<Value, ConvertAnswer>
    ensures { result ≡ operator_value op.ShiftRight a.now b.now }
{
    let (x, y) = both_bits(a, b)?;
    let shifted = x.cast_signed() >> (y % 32);
    Ok(Value::Number(Whole::from(shifted)))
}

fn unsigned_shift_right(a: &Value, b: &Value) -> Result<Value, ConvertAnswer>
    ensures { result ≡ operator_value op.UnsignedShiftRight a.now b.now }
{
    let (x, y) = both_bits(a, b)?;
    Ok(Value::Number(Whole::from(x >> (y % 32))))
}

// `a < b`; not-a-number gives false.
fn is_less(less: Option<bool>) -> Value
    ensures { result ≡ less_truth less }
{
    match less {
        Some(truth) => Value::Bool(truth),
        None => Value::Bool(false),
    }
}

// `a <= b`, of whether b is less than a; not-a-number gives false here too.
fn is_not_less(less: Option<bool>) -> Value
    ensures { result ≡ not_less_truth less }
{
    match less {
        Some(truth) => Value::Bool(!truth),
        None => Value::Bool(false),
    }
}
