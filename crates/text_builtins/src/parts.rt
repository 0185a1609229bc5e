// Parts of a text by their places (ECMA-262 5.1, sections 15.5.4.4, 15.5.4.5, 15.5.4.13, 15.5.4.15 and B.2.3).
ghost use Rattle.std.specs.Prelude.{◌≡◌, ◌≤◌, IfOk, length};
ghost use Rattle.text_builtins.specs.Parts.{
  char_at_of,
  char_code_of,
  clamped,
  code_of,
  from_end,
  part_of,
  place_from_end,
  place_or,
  position_of,
  slice_of,
  substr_of,
  substring_of,
  unit_at,
};

use crate::call::{TextArg, TextResult, first_number, second_number};
use std::alloc::Global;
use utf16_text::{Memory, Text};
use whole_number::Whole;

/// `charAt`: the unit at a place, or nothing where there is none (15.5.4.4).
pub fn char_at(alloc: Global, receiver: &Text, args: &[TextArg]) -> Result<TextResult, Memory>
    ensures { IfOk result (λ r. r ≡ char_at_of receiver.now args.now) }
{
    let unit = unit_at(receiver.units(), position(first_number(args)));
    Ok(TextResult::Text(Text::from_units(alloc, unit)?))
}

/// `charCodeAt`: the unit at a place as a number, or not-a-number where there is none (15.5.4.5).
pub fn char_code_at(receiver: &Text, args: &[TextArg]) -> TextResult
    ensures { result ≡ char_code_of receiver.now args.now }
{
    code(unit_at(receiver.units(), position(first_number(args))))
}

/// `substring`: between two places, whichever comes first (15.5.4.15).
pub fn substring(alloc: Global, receiver: &Text, args: &[TextArg]) -> Result<TextResult, Memory>
    ensures { IfOk result (λ r. r ≡ substring_of receiver.now args.now) }
{
    let length = receiver.len();
    let start = place(length, first_number(args), 0);
    let end = place(length, second_number(args), length);
    part(alloc, receiver, start.min(end), start.max(end))
}

/// `slice`: from the first place up to and without the second; places below 0 count from the end (15.5.4.13).
pub fn slice(alloc: Global, receiver: &Text, args: &[TextArg]) -> Result<TextResult, Memory>
    ensures { IfOk result (λ r. r ≡ slice_of receiver.now args.now) }
{
    let length = receiver.len();
    let start = relative_place(length, first_number(args), 0);
    let end = relative_place(length, second_number(args), length);
    part(alloc, receiver, start, end)
}

/// `substr`: so many units from a place on; a place below 0 counts from the end (B.2.3).
pub fn substr(alloc: Global, receiver: &Text, args: &[TextArg]) -> Result<TextResult, Memory>
    ensures { IfOk result (λ r. r ≡ substr_of receiver.now args.now) }
{
    let length = receiver.len();
    let start = relative_place(length, first_number(args), 0);
    let count = place(length, second_number(args), length);
    part(alloc, receiver, start, start + count.min(length - start))
}

// The units between two places, or none where the second comes first.
fn part(alloc: Global, receiver: &Text, from: usize, to: usize) -> Result<TextResult, Memory>
    requires { to ≤ length receiver.now }
    ensures { IfOk result (λ r. r ≡ part_of receiver.now from to) }
{
    if from >= to {
        return Ok(TextResult::Text(Text::from_units(alloc, &[])?));
    }
    Ok(TextResult::Text(receiver.slice(alloc, from, to)?))
}

/// A place in a text of this length; before its begin and behind its end these count, and `missing` where none is said.
pub fn place(length: usize, number: Option<Whole>, missing: usize) -> usize
    requires { missing ≤ length }
    ensures place { result ≡ place_or length missing number }
    ensures within { result ≤ length }
{
    match number {
        Some(number) => within(length, number.get()),
        None => missing,
    }
}

fn within(length: usize, at: i64) -> usize
    ensures place { result ≡ clamped length at }
    ensures within { result ≤ length }
{
    if at < 0 { 0 } else { (at as usize).min(length) }
}

fn relative_place(length: usize, number: Option<Whole>, missing: usize) -> usize
    requires { missing ≤ length }
    ensures place { result ≡ place_from_end length missing number }
    ensures within { result ≤ length }
{
    match number {
        Some(number) => counted_from_end(length, number.get()),
        None => missing,
    }
}

fn counted_from_end(length: usize, at: i64) -> usize
    ensures place { result ≡ from_end length at }
    ensures within { result ≤ length }
{
    if at < 0 {
        length.saturating_sub(at.unsigned_abs() as usize)
    } else {
        (at as usize).min(length)
    }
}

// 0 where none is said.
fn position(number: Option<Whole>) -> i64
    ensures { result ≡ position_of number }
{
    match number {
        Some(number) => number.get(),
        None => 0,
    }
}

// The unit at a place, or none.
fn unit_at(units: &[u16], at: i64) -> &[u16]
    ensures { result.now ≡ unit_at at units.now }
{
    if at < 0 || at as usize >= units.len() {
        return &[];
    }
    let rest = &units[at as usize..];
    &rest[..1]
}

fn code(unit: &[u16]) -> TextResult
    ensures { result ≡ code_of unit.now }
{
    match unit {
        [unit, ..] => TextResult::Number(Whole::from(u32::from(*unit))),
        [] => TextResult::NotANumber,
    }
}
