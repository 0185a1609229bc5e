// The functions of `Math` on whole numbers (ECMA-262 5.1, section 15.8.2).
ghost use Rattle.std.specs.Prelude.{◌≡◌};
ghost use Rattle.std.specs.Int.{int_max, int_min};
ghost use Rattle.number_builtins.specs.Math.{
  absolute_of,
  itself_of,
  larger_number,
  larger_of,
  largest_of,
  magnitude_of,
  smaller_number,
  smaller_of,
  smallest_of,
};

use crate::call::{NumberArg, NumberResult};
use whole_number::Whole;

/// The number without its sign (15.8.2.1).
pub fn absolute(number: Option<Whole>) -> NumberResult
    ensures { result ≡ absolute_of number }
{
    match number {
        Some(number) => NumberResult::Number(without_sign(number)),
        None => NumberResult::NotANumber,
    }
}

fn without_sign(number: Whole) -> Whole
    ensures { result ≡ magnitude_of number }
{
    Whole::new(number.get().abs()).unwrap()
}

/// A whole number is its own floor, ceiling and rounded value (15.8.2.9, 15.8.2.6, 15.8.2.15).
pub fn itself(number: Option<Whole>) -> NumberResult
    ensures { result ≡ itself_of number }
{
    match number {
        Some(number) => NumberResult::Number(number),
        None => NumberResult::NotANumber,
    }
}

/// The largest of the arguments; Range where there is none (15.8.2.11).
pub fn largest(args: &[NumberArg]) -> NumberResult
    ensures { result ≡ largest_of args.now }
{
    let mut most = NumberResult::Range;
    for arg in args {
        most = larger(most, arg);
    }
    most
}

/// The smallest of the arguments; Range where there is none (15.8.2.12).
pub fn smallest(args: &[NumberArg]) -> NumberResult
    ensures { result ≡ smallest_of args.now }
{
    let mut least = NumberResult::Range;
    for arg in args {
        least = smaller(least, arg);
    }
    least
}

fn larger(most: NumberResult, arg: &NumberArg) -> NumberResult
    ensures { result ≡ larger_of most arg.now }
{
    match arg {
        NumberArg::Number(number) => larger_number(most, *number),
        _ => NumberResult::NotANumber,
    }
}

fn larger_number(most: NumberResult, number: Whole) -> NumberResult
    ensures { result ≡ larger_number most number }
{
    match most {
        NumberResult::Range => NumberResult::Number(number),
        NumberResult::Number(most) => NumberResult::Number(larger_of_two(most, number)),
        _ => NumberResult::NotANumber,
    }
}

fn larger_of_two(most: Whole, number: Whole) -> Whole
    ensures { result ≡ int_max most number }
{
    if number.get() < most.get() {
        most
    } else {
        number
    }
}

fn smaller(least: NumberResult, arg: &NumberArg) -> NumberResult
    ensures { result ≡ smaller_of least arg.now }
{
    match arg {
        NumberArg::Number(number) => smaller_number(least, *number),
        _ => NumberResult::NotANumber,
    }
}

fn smaller_number(least: NumberResult, number: Whole) -> NumberResult
    ensures { result ≡ smaller_number least number }
{
    match least {
        NumberResult::Range => NumberResult::Number(number),
        NumberResult::Number(least) => NumberResult::Number(smaller_of_two(least, number)),
        _ => NumberResult::NotANumber,
    }
}

fn smaller_of_two(least: Whole, number: Whole) -> Whole
    ensures { result ≡ int_min least number }
{
    if number.get() < least.get() {
        number
    } else {
        least
    }
}
