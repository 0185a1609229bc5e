// The arguments of a method.
ghost use Rattle.std.specs.Prelude.{◌≡◌, ◌≤◌};
ghost use Rattle.array_builtins.specs.Arguments.{
  first_number as first_number_of,
  second_number as second_number_of,
  place_or,
  from_end,
};

use heap_values::Value;
use whole_number::Whole;

/// The first argument, where it is a number.
pub fn first_number(args: &[Value]) -> Option<Whole>
    ensures { result ≡ first_number_of args.now }
{
    match args {
        [Value::Number(number), ..] => Some(*number),
        _ => None,
    }
}

/// The second argument, where it is a number.
pub fn second_number(args: &[Value]) -> Option<Whole>
    ensures { result ≡ second_number_of args.now }
{
    match args {
        [_, rest @ ..] => first_number(rest),
        [] => None,
    }
}

/// A place in an array of this length, where one below 0 counts from the end, and `missing` where none is said.
pub fn place(length: u64, number: Option<Whole>, missing: u64) -> u64
    requires { missing ≤ length }
    ensures place { result ≡ place_or length missing number }
    ensures within { result ≤ length }
{
    match number {
        Some(number) => counted_from_end(length, number.get()),
        None => missing,
    }
}

fn counted_from_end(length: u64, at: i64) -> u64
    ensures place { result ≡ from_end length at }
    ensures within { result ≤ length }
{
    if at < 0 {
        length.saturating_sub(at.unsigned_abs())
    } else {
        (at as u64).min(length)
    }
}
