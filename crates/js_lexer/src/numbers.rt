// Number literals.
ghost use Rattle.std.specs.Prelude.{◌≡◌, ◌≤◌, ◌<◌, ◌+◌, true, IfOk, length};
ghost use Rattle.utf16_text.specs.Digits.{is_digit, value_of};
ghost use Rattle.js_grammar.specs.Units.{first_passes};
ghost use Rattle.js_grammar.specs.Literals as spec;

use crate::units::{begins_with, begins_word, behind, digits_length, hexadecimal_length};
use js_tree::ReadKind;
use whole_number::Whole;

const ZERO: u16 = 0x30;

fn begins_fraction(units: &[u16]) -> bool
    ensures { result ≡ first_passes spec.is_fraction_mark units.now }
{
    matches!(units, [46 | 101 | 69, ..])
}

/// The number of these digits, which was written by so many units, before the rest.
fn literal(
    base: u64,
    digits: &[u16],
    written: usize,
    rest: &[u16],
) -> Result<(Whole, usize), ReadKind>
    requires { base ≤ 36 }
    ensures value { result ≡ spec.literal (value_of base digits.now) written rest.now }
    ensures within { IfOk result (λ x. x.1 ≡ written) }
{
    if begins_word(rest) {
        return Err(ReadKind::BadToken);
    }
    match Whole::from_digits(base, digits) {
        None => Err(ReadKind::BadToken),
        Some(number) => Ok((number, written)),
    }
}

/// One or more hexadecimal digits, behind `0x`.
fn hexadecimal_at(units: &[u16]) -> Result<(Whole, usize), ReadKind>
    ensures value { result ≡ spec.hexadecimal_at units.now }
    ensures within { IfOk result (λ x. (2 < x.1) × (x.1 ≤ length units.now + 2)) }
{
    let count = hexadecimal_length(units);
    if count == 0 {
        return Err(ReadKind::BadToken);
    }
    let (digits, rest) = units.split_at(count);
    literal(16, digits, count + 2, rest)
}

/// Decimal digits, and neither a fraction nor an exponent behind them.
fn decimal_at(units: &[u16]) -> Result<(Whole, usize), ReadKind>
    ensures value { result ≡ spec.decimal_at units.now }
    ensures within { IfOk result (λ x. x.1 ≤ length units.now) }
    ensures some { first_passes is_digit units.now ≡ true → IfOk result (λ x. 0 < x.1) }
{
    let count = digits_length(units);
    if begins_with(ZERO, units) && count > 1 {
        return Err(ReadKind::Unsupported);
    }
    let (digits, rest) = units.split_at(count);
    if begins_fraction(rest) {
        return Err(ReadKind::FractionLiteral);
    }
    literal(10, digits, count, rest)
}

fn is_hexadecimal_literal(units: &[u16]) -> bool
    ensures value { result ≡ spec.is_hexadecimal_literal units.now }
    ensures long { result ≡ true → 2 ≤ length units.now }
{
    matches!(units, [48, 120 | 88, ..])
}

/// The number literal at the front, and how many units it has (ECMA-262 5.1, section 7.8.3).
pub fn number_at(units: &[u16]) -> Result<(Whole, usize), ReadKind>
    ensures value { result ≡ spec.number_at units.now }
    ensures within { IfOk result (λ x. x.1 ≤ length units.now) }
    ensures some { first_passes is_digit units.now ≡ true → IfOk result (λ x. 0 < x.1) }
{
    if is_hexadecimal_literal(units) {
        hexadecimal_at(behind(units, 2))
    } else {
        decimal_at(units)
    }
}
