// `parseInt` (ECMA-262 5.1, section 15.1.2.2).
ghost use Rattle.std.specs.Prelude.{◌≡◌, ◌≤◌, neg_ℤ, IsTrue, length};
ghost use Rattle.utf16_text.specs.Letters.{without_space_before};
ghost use Rattle.number_builtins.specs.Call.{parsed_of};
ghost use Rattle.number_builtins.specs.Parsing.{
  digits_before,
  has_prefix,
  is_digit_in,
  negated_of,
  number_in_front,
  number_in_radix_of,
  number_of_digits,
  numeral_of,
  parse_result,
  radix_or_none,
  signed_numeral,
};

use crate::call::{NumberArg, NumberResult, number};
use utf16_text::{Text, digit_of, is_space};
use whole_number::Whole;

const PLUS: u16 = 43;

const MINUS: u16 = 45;

/// The number in front of the first argument, a text, in the radix that the second one is.
pub fn parsed(args: &[NumberArg]) -> NumberResult
    ensures { result ≡ parsed_of args.now }
{
    match args {
        [NumberArg::Text(text), radix @ ..] => parse_int(text, radix_or_none(number(radix))),
        _ => NumberResult::NotANumber,
    }
}

// The radix as a signed number of 32 bits; 0 where none is said.
fn radix_or_none(radix: Option<Whole>) -> i32
    ensures { result ≡ radix_or_none radix }
{
    match radix {
        Some(radix) => radix.to_int32(),
        None => 0,
    }
}

fn parse_int(text: &Text, radix: i32) -> NumberResult
    ensures { result ≡ parse_result text.now radix }
{
    signed(without_space(text.units()), radix)
}

fn without_space(units: &[u16]) -> &[u16]
    ensures { result.now ≡ without_space_before units.now }
{
    let mut rest = units;
    while let Some((unit, others)) = rest.split_first() {
        if !is_space(*unit) {
            break;
        }
        rest = others;
    }
    rest
}

fn signed(units: &[u16], radix: i32) -> NumberResult
    ensures { result ≡ signed_numeral units.now radix }
{
    match units {
        [MINUS, numeral @ ..] => negated(unsigned(numeral, radix)),
        [PLUS, numeral @ ..] => unsigned(numeral, radix),
        _ => unsigned(units, radix),
    }
}

fn negated(number: NumberResult) -> NumberResult
    ensures { result ≡ negated_of number }
{
    match number {
        NumberResult::Number(number) => NumberResult::Number(opposite(number)),
        other => other,
    }
}

fn opposite(number: Whole) -> Whole
    ensures { result ≡ neg_ℤ number }
{
    Whole::new(-number.get()).unwrap()
}

fn unsigned(numeral: &[u16], radix: i32) -> NumberResult
    ensures { result ≡ numeral_of numeral.now radix }
{
    if (radix == 0 || radix == 16) && has_prefix(numeral) {
        number_in(&numeral[2..], 16)
    } else {
        number_in_radix(numeral, radix)
    }
}

// Whether `0x` or `0X` stands in front.
fn has_prefix(units: &[u16]) -> bool
    ensures prefix { result ≡ has_prefix units.now }
    ensures within { IsTrue result → 2 ≤ length units.now }
{
    matches!(units, [48, 88 | 120, ..])
}

fn number_in_radix(numeral: &[u16], radix: i32) -> NumberResult
    ensures { result ≡ number_in_radix_of numeral.now radix }
{
    match radix {
        0 => number_in(numeral, 10),
        2..=36 => number_in(numeral, radix as u64),
        _ => NumberResult::NotANumber,
    }
}

fn number_in(units: &[u16], radix: u64) -> NumberResult
    requires { radix ≤ 36 }
    ensures { result ≡ number_in_front radix units.now }
{
    spelled_number(digits_before(units, radix), radix)
}

fn spelled_number(digits: &[u16], radix: u64) -> NumberResult
    requires { radix ≤ 36 }
    ensures { result ≡ number_of_digits radix digits.now }
{
    if digits.is_empty() {
        return NumberResult::NotANumber;
    }
    match Whole::from_digits(radix, digits) {
        Some(number) => NumberResult::Number(number),
        None => NumberResult::Range,
    }
}

// The units before the first one that is no digit of the radix.
fn digits_before(units: &[u16], radix: u64) -> &[u16]
    ensures { result.now ≡ digits_before radix units.now }
{
    let mut rest = units;
    let mut count = 0;
    while let Some((unit, others)) = rest.split_first() {
        if !is_digit_in(*unit, radix) {
            return &units[..count];
        }
        rest = others;
        count += 1;
    }
    units
}

fn is_digit_in(unit: u16, radix: u64) -> bool
    ensures { result ≡ is_digit_in radix unit }
{
    matches!(unit, 48..=57 | 65..=90 | 97..=122) && u64::from(digit_of(unit)) < radix
}
