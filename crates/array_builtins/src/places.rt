// Where a value stands in an array.
ghost use Rattle.std.specs.Prelude.{◌≡◌, ◌≤◌, IfOk, IfSome};
ghost use Rattle.std.specs.Fmt.{decimal};
ghost use Rattle.array_builtins.specs.Elements.{element as element_of};
ghost use Rattle.array_builtins.specs.Places.{
  behind_last,
  behind_passed,
  behind_position,
  index_from,
  index_of as index_of_value,
  is_equal,
  last_index_of as last_index_of_value,
  place_below,
  place_from,
  place_value,
};

use crate::arguments::{place, second_number};
use crate::elements::element;
use heap_values::{ObjectId, Value};
use js_convert::strict_equals;
use object_heap::Heap;
use std::alloc::Global;
use utf16_text::Memory;
use whole_number::Whole;

/// `indexOf`: the first place of a value at or behind a position, or -1 (15.4.4.14).
pub fn index_of(
    alloc: Global,
    heap: &Heap,
    array: ObjectId,
    args: &[Value],
) -> Result<Value, Memory>
    ensures { IfOk result (λ v. v ≡ index_of_value heap.now array args.now) }
{
    let length = u64::from(heap.length(array));
    let from = place(length, second_number(args), 0);
    match args {
        [value, ..] => index_from(alloc, heap, array, value, length, from),
        [] => index_from(alloc, heap, array, &Value::Undefined, length, from),
    }
}

fn index_from(
    alloc: Global,
    heap: &Heap,
    array: ObjectId,
    value: &Value,
    length: u64,
    from: u64,
) -> Result<Value, Memory>
    requires { length ≤ 4294967295 }
    ensures { IfOk result (λ v. v ≡ index_from heap.now array value.now length from) }
{
    for at in from..length {
        if stands_at(alloc, heap, array, value, at)? {
            return Ok(number_of(Some(at)));
        }
    }
    Ok(number_of(None))
}

// Whether the element at a place is there and strictly equal to the value.
fn stands_at(
    alloc: Global,
    heap: &Heap,
    array: ObjectId,
    value: &Value,
    at: u64,
) -> Result<bool, Memory>
    ensures { IfOk result (λ stands. stands ≡ is_equal value.now (element_of heap.now array (decimal at))) }
{
    match element(alloc, heap, array, at)? {
        Some(element) => Ok(strict_equals(value, &element)),
        None => Ok(false),
    }
}

fn number_of(place: Option<u64>) -> Value
    requires { IfSome place (λ at. at ≤ 4294967295) }
    ensures { result ≡ place_value place }
{
    match place {
        Some(at) => Value::Number(Whole::from(at as u32)),
        None => Value::Number(Whole::from(-1_i32)),
    }
}

/// `lastIndexOf`: the last place of a value at or before a position, or -1; where no position is passed, it is that of
/// the last element (15.4.4.15).
pub fn last_index_of(
    alloc: Global,
    heap: &Heap,
    array: ObjectId,
    args: &[Value],
) -> Result<Value, Memory>
    ensures { IfOk result (λ v. v ≡ last_index_of_value heap.now array args.now) }
{
    let below = behind_last(u64::from(heap.length(array)), args);
    match args {
        [value, ..] => last_index_below(alloc, heap, array, value, below),
        [] => last_index_below(alloc, heap, array, &Value::Undefined, below),
    }
}

fn last_index_below(
    alloc: Global,
    heap: &Heap,
    array: ObjectId,
    value: &Value,
    below: u64,
) -> Result<Value, Memory>
    requires { below ≤ 4294967295 }
    ensures { IfOk result (λ v. v ≡ place_value (place_below heap.now array value.now below)) }
{
    let mut left = below;
    while left > 0 {
        left -= 1;
        if stands_at(alloc, heap, array, value, left)? {
            return Ok(number_of(Some(left)));
        }
    }
    Ok(number_of(None))
}

// The place behind the one from which the search goes down.
fn behind_last(length: u64, args: &[Value]) -> u64
    ensures place { result ≡ behind_last length args.now }
    ensures within { result ≤ length }
{
    match args {
        [_, _, ..] => behind_passed(length, second_number(args)),
        _ => length,
    }
}

fn behind_passed(length: u64, number: Option<Whole>) -> u64
    ensures place { result ≡ behind_passed length number }
    ensures within { result ≤ length }
{
    match number {
        Some(number) => behind_position(length, number.get()),
        None => behind_position(length, 0),
    }
}

fn behind_position(length: u64, at: i64) -> u64
    ensures place { result ≡ behind_position length at }
    ensures within { result ≤ length }
{
    if at < 0 {
        length.saturating_sub(at.unsigned_abs() - 1)
    } else {
        (at as u64 + 1).min(length)
    }
}
