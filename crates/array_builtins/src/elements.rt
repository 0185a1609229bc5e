// The elements and the length of an array.
ghost use Rattle.std.specs.Prelude.{◌≡◌, ◌≤◌, ◌+◌, ◌⊎◌, IfOk, IfErr, OnOk, Ok, Err};
ghost use Rattle.std.specs.Fmt.{decimal};
ghost use Rattle.array_builtins.specs.Elements.{
  all_put,
  array_made,
  cut as cut_at,
  defined,
  element as element_of,
  length_set,
  moved,
  moved_backward,
  moved_forward,
  put,
  put_or_deleted,
  value_found,
  without,
};
ghost use Rattle.object_heap.specs.declared.limits.TheConstants.{LONGEST_ARRAY};

use heap_values::{BuiltIn, Found, HeapAnswer, Kind, ObjectId, Value};
use itoa::Buffer;
use object_heap::{Heap, LONGEST_ARRAY};
use std::alloc::Global;
use utf16_text::{Memory, Text};
use whole_number::Whole;

// The name of the element at a place.
fn index_name(alloc: Global, at: u64) -> Result<Text, Memory>
    ensures { IfOk result (λ name. name ≡ decimal at) }
{
    let mut digits = Buffer::new();
    Text::from_latin_1(alloc, digits.format(at).as_bytes())
}

/// Makes an array without elements (ECMA-262 5.1, section 15.4.2.1).
pub fn make_array(alloc: Global, heap: &mut Heap) -> Result<ObjectId, HeapAnswer>
    ensures ok { IfOk result (λ id. array_made heap.old ≡ Ok (id, heap.new)) }
    ensures err { IfErr result (λ e. (e ≡ HeapAnswer.Memory) ⊎ (array_made heap.old ≡ Err e)) }
{
    let prototype = heap.built_in(BuiltIn::ArrayPrototype);
    heap.make(alloc, Kind::Array, Some(prototype))
}

/// The element at a place, the array's own or an inherited one.
pub fn element(
    alloc: Global,
    heap: &Heap,
    array: ObjectId,
    at: u64,
) -> Result<Option<Value>, Memory>
    ensures { IfOk result (λ v. v ≡ element_of heap.now array (decimal at)) }
{
    let found = match u32::try_from(at) {
        Ok(index) => heap.get_index(alloc, array, index)?,
        Err(_) => heap.get(alloc, array, &index_name(alloc, at)?)?,
    };
    Ok(value_in(found))
}

/// Puts a value at a place.
pub fn put_element(
    alloc: Global,
    heap: &mut Heap,
    array: ObjectId,
    at: u64,
    value: Value,
) -> Result<(), HeapAnswer>
    ensures ok { OnOk result (put heap.old array (decimal at) value ≡ Ok heap.new) }
    ensures err { IfErr result (λ e. (e ≡ HeapAnswer.Memory) ⊎ (put heap.old array (decimal at) value ≡ Err e)) }
{
    match u32::try_from(at) {
        Ok(index) => heap.put_index(alloc, array, index, value),
        Err(_) => heap.put(alloc, array, &index_name(alloc, at)?, value),
    }
}

/// Defines the element at a place of an array that is made, listed and deletable.
pub fn define_element(
    alloc: Global,
    heap: &mut Heap,
    array: ObjectId,
    at: u64,
    value: Value,
) -> Result<(), HeapAnswer>
    ensures ok { OnOk result (defined heap.old array (decimal at) value ≡ Ok heap.new) }
    ensures err { IfErr result (λ e. (e ≡ HeapAnswer.Memory) ⊎ (defined heap.old array (decimal at) value ≡ Err e)) }
{
    match u32::try_from(at) {
        Ok(index) => heap.define_index(alloc, array, index, value),
        Err(_) => heap.define(alloc, array, &index_name(alloc, at)?, value, true, true),
    }
}

/// Deletes the element at a place.
pub fn delete_element(
    alloc: Global,
    heap: &mut Heap,
    array: ObjectId,
    at: u64,
) -> Result<(), Memory>
    ensures { OnOk result (heap.new ≡ without heap.old array (decimal at)) }
{
    let name = index_name(alloc, at)?;
    heap.delete(alloc, array, &name)?;
    Ok(())
}

fn value_in(found: Found) -> Option<Value>
    ensures { result ≡ value_found found }
{
    match found {
        Found::Value(value) => Some(value),
        Found::LeftOut(_) => None,
        Found::Absent => None,
    }
}

/// Sets the length of an array. ArrayTooLong comes over 100,000.
pub fn set_length(
    alloc: Global,
    heap: &mut Heap,
    array: ObjectId,
    length: u64,
) -> Result<(), HeapAnswer>
    ensures ok { OnOk result (length_set heap.old array length ≡ Ok heap.new) }
    ensures err { IfErr result (λ e. (e ≡ HeapAnswer.Memory) ⊎ (length_set heap.old array length ≡ Err e)) }
    ensures within { OnOk result (length ≤ LONGEST_ARRAY) }
{
    if length > LONGEST_ARRAY as u64 {
        return Err(HeapAnswer::ArrayTooLong);
    }
    let name = Text::from_latin_1(alloc, b"length")?;
    heap.put(
        alloc,
        array,
        &name,
        Value::Number(Whole::from(length as u32)),
    )
}

/// Deletes the last element of an array, which stands at this place, and sets the length to it.
pub fn cut(alloc: Global, heap: &mut Heap, array: ObjectId, last: u64) -> Result<(), HeapAnswer>
    ensures ok { OnOk result (cut_at heap.old array (decimal last) last ≡ Ok heap.new) }
    ensures err { IfErr result (λ e. (e ≡ HeapAnswer.Memory) ⊎ (cut_at heap.old array (decimal last) last ≡ Err e)) }
{
    delete_element(alloc, heap, array, last)?;
    set_length(alloc, heap, array, last)
}

/// Puts values at a place and behind it.
pub fn put_all(
    alloc: Global,
    heap: &mut Heap,
    array: ObjectId,
    from: u64,
    values: &[Value],
) -> Result<(), HeapAnswer>
    requires { from ≤ 4294967295 }
    ensures ok { OnOk result (all_put heap.old array from values.now ≡ Ok heap.new) }
    ensures err { IfErr result (λ e. (e ≡ HeapAnswer.Memory) ⊎ (all_put heap.old array from values.now ≡ Err e)) }
{
    let mut at = from;
    let mut rest = values;
    while let Some((value, others)) = rest.split_first() {
        put_element(alloc, heap, array, at, value.copy(alloc)?)?;
        at += 1;
        rest = others;
    }
    Ok(())
}

// Moves the element at a place to another; where none is there, nothing stays at the other.
fn move_element(
    alloc: Global,
    heap: &mut Heap,
    array: ObjectId,
    from: u64,
    to: u64,
) -> Result<(), HeapAnswer>
    ensures ok { OnOk result (moved array from to heap.old ≡ Ok heap.new) }
    ensures err { IfErr result (λ e. (e ≡ HeapAnswer.Memory) ⊎ (moved array from to heap.old ≡ Err e)) }
{
    let value = element(alloc, heap, array, from)?;
    put_or_delete(alloc, heap, array, to, value)
}

fn put_or_delete(
    alloc: Global,
    heap: &mut Heap,
    array: ObjectId,
    at: u64,
    value: Option<Value>,
) -> Result<(), HeapAnswer>
    ensures ok { OnOk result (put_or_deleted heap.old array (decimal at) value ≡ Ok heap.new) }
    ensures err { IfErr result (λ e. (e ≡ HeapAnswer.Memory) ⊎ (put_or_deleted heap.old array (decimal at) value ≡ Err e)) }
{
    match value {
        Some(value) => put_element(alloc, heap, array, at, value),
        None => Ok(delete_element(alloc, heap, array, at)?),
    }
}

/// Moves so many elements from one place on to another place on, the first one first.
pub fn move_forward(
    alloc: Global,
    heap: &mut Heap,
    array: ObjectId,
    from: u64,
    to: u64,
    count: u64,
) -> Result<(), HeapAnswer>
    requires from_fits { from + count ≤ 18446744073709551615 }
    requires to_fits { to + count ≤ 18446744073709551615 }
    ensures ok { OnOk result (moved_forward heap.old array from to count ≡ Ok heap.new) }
    ensures err { IfErr result (λ e. (e ≡ HeapAnswer.Memory) ⊎ (moved_forward heap.old array from to count ≡ Err e)) }
{
    for k in 0..count {
        move_element(alloc, heap, array, from + k, to + k)?;
    }
    Ok(())
}

/// The same, the last one first.
pub fn move_backward(
    alloc: Global,
    heap: &mut Heap,
    array: ObjectId,
    from: u64,
    to: u64,
    count: u64,
) -> Result<(), HeapAnswer>
    requires from_fits { from + count ≤ 18446744073709551615 }
    requires to_fits { to + count ≤ 18446744073709551615 }
    ensures ok { OnOk result (moved_backward heap.old array from to count ≡ Ok heap.new) }
    ensures err { IfErr result (λ e. (e ≡ HeapAnswer.Memory) ⊎ (moved_backward heap.old array from to count ≡ Err e)) }
{
    let mut left = count;
    while left > 0 {
        left -= 1;
        move_element(alloc, heap, array, from + left, to + left)?;
    }
    Ok(())
}
