// Arrays made of parts of arrays.
ghost use Rattle.std.specs.Prelude.{◌≡◌, ◌≤◌, ◌+◌, ◌⊎◌, IfOk, IfErr, OnOk, Ok, Err, ◌∷◌};
ghost use Rattle.array_builtins.specs.Parts.{
  all_appended,
  appended,
  array_in,
  concat_of,
  copied,
  copied_one,
  is_array as is_array_kind,
  place_behind,
  slice_of,
};
ghost use Rattle.object_heap.specs.declared.limits.TheConstants.{LONGEST_ARRAY};

use crate::arguments::{first_number, place, second_number};
use crate::elements::{define_element, element, make_array};
use heap_values::{HeapAnswer, Kind, ObjectId, Value};
use object_heap::{Heap, LONGEST_ARRAY};
use std::alloc::Global;

/// A place that stands for each at which an array takes no element.
const END: u64 = LONGEST_ARRAY as u64;

/// `slice`: a new array of the elements from one place up to and without another (15.4.4.10).
pub fn slice(
    alloc: Global,
    heap: &mut Heap,
    array: ObjectId,
    args: &[Value],
) -> Result<Value, HeapAnswer>
    ensures ok { IfOk result (λ v. slice_of heap.old array args.now ≡ Ok (v, heap.new)) }
    ensures err { IfErr result (λ e. (e ≡ HeapAnswer.Memory) ⊎ (slice_of heap.old array args.now ≡ Err e)) }
{
    let length = u64::from(heap.length(array));
    let from = place(length, first_number(args), 0);
    let to = place(length, second_number(args), length);
    let made = make_array(alloc, heap)?;
    copy_elements(alloc, heap, array, from, made, 0, to.saturating_sub(from))?;
    Ok(Value::Object(made))
}

/// Defines so many elements of an array, from a place on, at a place of a new one and behind it.
pub fn copy_elements(
    alloc: Global,
    heap: &mut Heap,
    array: ObjectId,
    from: u64,
    into: ObjectId,
    to: u64,
    count: u64,
) -> Result<(), HeapAnswer>
    requires from_fits { from + count ≤ 18446744073709551615 }
    requires to_fits { to + count ≤ 18446744073709551615 }
    ensures ok { OnOk result (copied heap.old array from into to count ≡ Ok heap.new) }
    ensures err { IfErr result (λ e. (e ≡ HeapAnswer.Memory) ⊎ (copied heap.old array from into to count ≡ Err e)) }
{
    for k in 0..count {
        copy_element(alloc, heap, array, from + k, into, to + k)?;
    }
    Ok(())
}

fn copy_element(
    alloc: Global,
    heap: &mut Heap,
    array: ObjectId,
    from: u64,
    into: ObjectId,
    to: u64,
) -> Result<(), HeapAnswer>
    ensures ok { OnOk result (copied_one array from into to heap.old ≡ Ok heap.new) }
    ensures err { IfErr result (λ e. (e ≡ HeapAnswer.Memory) ⊎ (copied_one array from into to heap.old ≡ Err e)) }
{
    match element(alloc, heap, array, from)? {
        Some(value) => define_element(alloc, heap, into, to, value),
        None => Ok(()),
    }
}

/// `concat`: a new array of the receiver's elements and of the arguments, of an array its elements (15.4.4.4).
pub fn concat(
    alloc: Global,
    heap: &mut Heap,
    array: ObjectId,
    args: &[Value],
) -> Result<Value, HeapAnswer>
    ensures ok { IfOk result (λ v. concat_of heap.old array args.now ≡ Ok (v, heap.new)) }
    ensures err { IfErr result (λ e. (e ≡ HeapAnswer.Memory) ⊎ (concat_of heap.old array args.now ≡ Err e)) }
{
    let made = make_array(alloc, heap)?;
    let behind = append(alloc, heap, made, 0, &Value::Object(array))?;
    append_all(alloc, heap, made, behind, args)?;
    Ok(Value::Object(made))
}

fn append_all(
    alloc: Global,
    heap: &mut Heap,
    into: ObjectId,
    from: u64,
    items: &[Value],
) -> Result<(), HeapAnswer>
    requires { from ≤ LONGEST_ARRAY }
    ensures ok { OnOk result (all_appended heap.old into from items.now ≡ Ok heap.new) }
    ensures err { IfErr result (λ e. (e ≡ HeapAnswer.Memory) ⊎ (all_appended heap.old into from items.now ≡ Err e)) }
{
    let mut at = from;
    let mut rest = items;
    while let Some((item, others)) = rest.split_first() {
        at = append(alloc, heap, into, at, item)?;
        rest = others;
    }
    Ok(())
}

// Appends an item at a place, of an array its elements from there on, and gives the place behind.
fn append(
    alloc: Global,
    heap: &mut Heap,
    into: ObjectId,
    at: u64,
    item: &Value,
) -> Result<u64, HeapAnswer>
    requires { at ≤ LONGEST_ARRAY }
    ensures ok { IfOk result (λ behind. appended heap.old into at item.now ≡ Ok (behind, heap.new)) }
    ensures err { IfErr result (λ e. (e ≡ HeapAnswer.Memory) ⊎ (appended heap.old into at item.now ≡ Err e)) }
    ensures within { IfOk result (λ behind. behind ≤ LONGEST_ARRAY) }
{
    match array_of(heap, item) {
        None => {
            define_element(alloc, heap, into, at, item.copy(alloc)?)?;
            Ok(behind(at, 1))
        }
        Some(array) => {
            let length = u64::from(heap.length(array));
            copy_elements(alloc, heap, array, 0, into, at, length)?;
            Ok(behind(at, length))
        }
    }
}

fn array_of(heap: &Heap, value: &Value) -> Option<ObjectId>
    ensures { result ≡ array_in heap.now value.now }
{
    match value {
        Value::Object(id) => {
            if is_array(heap.kind(*id)) {
                Some(*id)
            } else {
                None
            }
        }
        _ => None,
    }
}

fn is_array(kind: Kind) -> bool
    ensures { result ≡ is_array_kind kind }
{
    matches!(kind, Kind::Array)
}

fn behind(at: u64, count: u64) -> u64
    requires at_fits { at ≤ LONGEST_ARRAY }
    requires count_fits { count ≤ 4294967295 }
    ensures place { result ≡ place_behind at count }
    ensures within { result ≤ LONGEST_ARRAY }
{
    (at + count).min(END)
}
