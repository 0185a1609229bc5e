// A call of a built-in function of numbers.
ghost use Rattle.std.specs.Prelude.{◌≡◌, IfOk};
ghost use Rattle.number_builtins.specs.Call.{number_in, number_result};

use crate::math::{absolute, itself, largest, smallest};
use crate::numerals::written;
use crate::parsing::parsed;
use std::alloc::Global;
use utf16_text::{Memory, Text};
use whole_number::Whole;

/// The built-in functions of numbers.
#[derive(Clone, Copy, Debug, PartialEq, Eq)]
pub enum NumberMethod {
    Abs,
    Max,
    Min,
    Floor,
    Ceil,
    Round,
    ParseInt,
    ToString,
}

/// An argument, converted already.
#[derive(Drop)]
pub enum NumberArg {
    /// The argument is left out.
    Absent,
    Text(Text),
    Number(Whole),
}

/// What a function of numbers gives.
#[derive(Drop)]
pub enum NumberResult {
    Number(Whole),
    Text(Text),
    /// No whole number of at most 2^53 - 1 in size: `max` and `min` of nothing, and a numeral that is too large.
    Range,
    /// Not-a-number: no numeral, or a radix that `parseInt` doesn't know; and where a number is needed, an argument
    /// that is none.
    NotANumber,
    /// A radix that `toString` doesn't know.
    BadRadix,
}

/// Calls a function of `Math` on its arguments, `parseInt` on a text and a radix, or `toString` on the number that it
/// is called on and a radix. Range comes exactly for `max` and `min` without arguments and for a numeral over 2^53 - 1;
/// BadRadix exactly for a `toString` whose radix is there and isn't from 2 to 36.
pub fn call_number(
    alloc: Global,
    which: NumberMethod,
    args: &[NumberArg],
) -> Result<NumberResult, Memory>
    ensures { IfOk result (λ r. r ≡ number_result which args.now) }
{
    match which {
        NumberMethod::Abs => Ok(absolute(number(args))),
        NumberMethod::Max => Ok(largest(args)),
        NumberMethod::Min => Ok(smallest(args)),
        NumberMethod::Floor => Ok(itself(number(args))),
        NumberMethod::Ceil => Ok(itself(number(args))),
        NumberMethod::Round => Ok(itself(number(args))),
        NumberMethod::ParseInt => Ok(parsed(args)),
        NumberMethod::ToString => written(alloc, args),
    }
}

/// The first argument, where it is a number.
pub fn number(args: &[NumberArg]) -> Option<Whole>
    ensures { result ≡ number_in args.now }
{
    match args {
        [NumberArg::Number(number), ..] => Some(*number),
        _ => None,
    }
}
