// A part of an array in place of another.
ghost use Rattle.std.specs.Prelude.{◌≡◌, ◌≤◌, ◌+◌, ◌⊎◌, IfOk, IfErr, OnOk, Ok, Err, length};
ghost use Rattle.array_builtins.specs.Splicing.{
  all_deleted,
  clamped as clamped_number,
  count_of,
  items_in,
  replaced,
  room_made,
  splice_of,
};

use crate::arguments::{first_number, place, second_number};
use crate::elements::{
    delete_element, make_array, move_backward, move_forward, put_all, set_length,
};
use crate::parts::copy_elements;
use heap_values::{HeapAnswer, ObjectId, Value};
use object_heap::Heap;
use std::alloc::Global;
use whole_number::Whole;

/// `splice`: takes so many elements from a place on out, puts the arguments behind the first two in their place, and
/// gives a new array of what was taken out (15.4.4.12).
pub fn splice(
    alloc: Global,
    heap: &mut Heap,
    array: ObjectId,
    args: &[Value],
) -> Result<Value, HeapAnswer>
    ensures ok { IfOk result (λ v. splice_of heap.old array args.now ≡ Ok (v, heap.new)) }
    ensures err { IfErr result (λ e. (e ≡ HeapAnswer.Memory) ⊎ (splice_of heap.old array args.now ≡ Err e)) }
{
    let length = u64::from(heap.length(array));
    let start = place(length, first_number(args), 0);
    let count = count(length - start, second_number(args));
    let made = make_array(alloc, heap)?;
    copy_elements(alloc, heap, array, start, made, 0, count)?;
    replace(alloc, heap, array, length, start, count, items(args))?;
    Ok(Value::Object(made))
}

// How many of the elements that are left are taken out.
fn count(left: u64, number: Option<Whole>) -> u64
    ensures count { result ≡ count_of left number }
    ensures within { result ≤ left }
{
    match number {
        Some(number) => clamped(left, number.get()),
        None => 0,
    }
}

fn clamped(left: u64, count: i64) -> u64
    ensures count { result ≡ clamped_number left count }
    ensures within { result ≤ left }
{
    if count < 0 {
        0
    } else {
        (count as u64).min(left)
    }
}

fn items(args: &[Value]) -> &[Value]
    ensures { result.now ≡ items_in args.now }
{
    match args {
        [_, _, items @ ..] => items,
        _ => &[],
    }
}

// Puts the items in place of the `count` elements at `start`.
fn replace(
    alloc: Global,
    heap: &mut Heap,
    array: ObjectId,
    length: u64,
    start: u64,
    count: u64,
    items: &[Value],
) -> Result<(), HeapAnswer>
    requires within { start + count ≤ length }
    requires length_fits { length ≤ 4294967295 }
    ensures ok { OnOk result (replaced heap.old array length start count items.now ≡ Ok heap.new) }
    ensures err { IfErr result (λ e. (e ≡ HeapAnswer.Memory) ⊎ (replaced heap.old array length start count items.now ≡ Err e)) }
{
    let more = items.len() as u64;
    make_room(alloc, heap, array, length, start, count, more)?;
    put_all(alloc, heap, array, start, items)?;
    set_length(alloc, heap, array, length - count + more)
}

// Moves the elements behind the `count` at `start`, so that `more` fit there.
fn make_room(
    alloc: Global,
    heap: &mut Heap,
    array: ObjectId,
    length: u64,
    start: u64,
    count: u64,
    more: u64,
) -> Result<(), HeapAnswer>
    requires within { start + count ≤ length }
    requires length_fits { length ≤ 4294967295 }
    requires more_fit { more ≤ 9223372036854775807 }
    ensures ok { OnOk result (room_made heap.old array length start count more ≡ Ok heap.new) }
    ensures err { IfErr result (λ e. (e ≡ HeapAnswer.Memory) ⊎ (room_made heap.old array length start count more ≡ Err e)) }
{
    let behind = length - start - count;
    if more < count {
        move_forward(alloc, heap, array, start + count, start + more, behind)?;
        delete_all(alloc, heap, array, length - count + more, count - more)
    } else if more > count {
        move_backward(alloc, heap, array, start + count, start + more, behind)
    } else {
        Ok(())
    }
}

// Deletes so many elements from a place on, the last one first.
fn delete_all(
    alloc: Global,
    heap: &mut Heap,
    array: ObjectId,
    from: u64,
    count: u64,
) -> Result<(), HeapAnswer>
    requires from_fits { from ≤ 4294967295 }
    requires count_fits { count ≤ 4294967295 }
    ensures ok { OnOk result (all_deleted heap.old array from count ≡ Ok heap.new) }
    ensures err { IfErr result (λ e. (e ≡ HeapAnswer.Memory) ⊎ (all_deleted heap.old array from count ≡ Err e)) }
{
    let mut left = count;
    while left > 0 {
        left -= 1;
        delete_element(alloc, heap, array, from + left)?;
    }
    Ok(())
}
