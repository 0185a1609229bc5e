// Numbers as texts, in any radix (ECMA-262 5.1, section 15.7.4.2).
ghost use Rattle.std.specs.Prelude.{◌≡◌, ◌<◌, ◌≤◌, ◌++◌, IfOk, OnOk, IfSome, reverse};
ghost use Rattle.std.specs.Char.{digit_char};
ghost use Rattle.number_builtins.specs.Call.{written_of};
ghost use Rattle.number_builtins.specs.Numerals.{digits_text, known_radix_of, numeral_text, radix_in};

use crate::call::{NumberArg, NumberResult};
use std::alloc::{AllocError, Global};
use utf16_text::{Memory, Text};
use whole_number::Whole;

const MINUS: u16 = 45;

/// The first argument, a number, in the radix that the second one is.
pub fn written(alloc: Global, args: &[NumberArg]) -> Result<NumberResult, Memory>
    ensures { IfOk result (λ r. r ≡ written_of args.now) }
{
    match args {
        [NumberArg::Number(number), radix @ ..] => match radix_of(radix) {
            Some(radix) => Ok(NumberResult::Text(numeral(alloc, *number, radix)?)),
            None => Ok(NumberResult::BadRadix),
        },
        _ => Ok(NumberResult::NotANumber),
    }
}

// 10 where the argument is left out, and none where it isn't from 2 to 36.
fn radix_of(args: &[NumberArg]) -> Option<u64>
    ensures radix { result ≡ radix_in args.now }
    ensures at_least { IfSome result (λ r. 2 ≤ r) }
    ensures at_most { IfSome result (λ r. r ≤ 36) }
{
    match args {
        [] | [NumberArg::Absent, ..] => Some(10),
        [NumberArg::Number(radix), ..] => known_radix(radix.get()),
        [NumberArg::Text(_), ..] => None,
    }
}

fn known_radix(radix: i64) -> Option<u64>
    ensures radix { result ≡ known_radix_of radix }
    ensures at_least { IfSome result (λ r. 2 ≤ r) }
    ensures at_most { IfSome result (λ r. r ≤ 36) }
{
    match radix {
        2..=36 => Some(radix as u64),
        _ => None,
    }
}

// The digits are made from the last one on.
fn numeral(alloc: Global, number: Whole, radix: u64) -> Result<Text, Memory>
    requires at_least { 2 ≤ radix }
    requires at_most { radix ≤ 36 }
    ensures { IfOk result (λ t. t ≡ numeral_text radix number) }
{
    let mut units = Vec::new(alloc);
    push_digits(&mut units, number.get().unsigned_abs(), radix)?;
    if number.get() < 0 {
        units.push(MINUS)?;
    }
    units.reverse();
    Text::from_vec(units)
}

fn push_digits(units: &mut Vec<u16>, number: u64, radix: u64) -> Result<(), AllocError>
    requires at_least { 2 ≤ radix }
    requires at_most { radix ≤ 36 }
    ensures { OnOk result (units.new.items ≡ units.old.items ++ reverse (digits_text radix number)) }
{
    let mut rest = number;
    loop {
        units.push(digit_unit(rest % radix))?;
        rest /= radix;
        if rest == 0 {
            return Ok(());
        }
    }
}

// `0` to `9`, then `a` to `z`.
fn digit_unit(digit: u64) -> u16
    requires { digit < 36 }
    ensures { result ≡ digit_char digit }
{
    if digit < 10 {
        digit as u16 + 48
    } else {
        digit as u16 + 87
    }
}
