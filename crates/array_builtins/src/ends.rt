// Elements put to the ends of an array, and taken from them.
ghost use Rattle.std.specs.Prelude.{◌≡◌, ◌⊎◌, IfOk, IfErr, Ok, Err};
ghost use Rattle.array_builtins.specs.Ends.{pop_of, push_of, shift_of, unshift_of, with_length};
ghost use Rattle.array_builtins.specs.Elements.{value_of as value_of_element};

use crate::elements::{cut, element, move_backward, move_forward, put_all, set_length};
use heap_values::{HeapAnswer, ObjectId, Value};
use object_heap::Heap;
use std::alloc::Global;
use whole_number::Whole;

/// `push`: puts the arguments behind the last element, and gives the new length (15.4.4.7).
pub fn push(
    alloc: Global,
    heap: &mut Heap,
    array: ObjectId,
    args: &[Value],
) -> Result<Value, HeapAnswer>
    ensures ok { IfOk result (λ v. push_of heap.old array args.now ≡ Ok (v, heap.new)) }
    ensures err { IfErr result (λ e. (e ≡ HeapAnswer.Memory) ⊎ (push_of heap.old array args.now ≡ Err e)) }
{
    let length = u64::from(heap.length(array));
    put_all(alloc, heap, array, length, args)?;
    give_length(alloc, heap, array, length + args.len() as u64)
}

// Sets the length, and gives it.
fn give_length(
    alloc: Global,
    heap: &mut Heap,
    array: ObjectId,
    length: u64,
) -> Result<Value, HeapAnswer>
    ensures ok { IfOk result (λ v. with_length heap.old array length ≡ Ok (v, heap.new)) }
    ensures err { IfErr result (λ e. (e ≡ HeapAnswer.Memory) ⊎ (with_length heap.old array length ≡ Err e)) }
{
    set_length(alloc, heap, array, length)?;
    Ok(Value::Number(Whole::from(length as u32)))
}

/// `pop`: takes the last element away, and gives it; undefined where there is none (15.4.4.6).
pub fn pop(alloc: Global, heap: &mut Heap, array: ObjectId) -> Result<Value, HeapAnswer>
    ensures ok { IfOk result (λ v. pop_of heap.old array ≡ Ok (v, heap.new)) }
    ensures err { IfErr result (λ e. (e ≡ HeapAnswer.Memory) ⊎ (pop_of heap.old array ≡ Err e)) }
{
    let length = heap.length(array);
    if length == 0 {
        set_length(alloc, heap, array, 0)?;
        return Ok(Value::Undefined);
    }
    let last = u64::from(length - 1);
    let value = element(alloc, heap, array, last)?;
    cut(alloc, heap, array, last)?;
    Ok(or_undefined(value))
}

fn or_undefined(value: Option<Value>) -> Value
    ensures { result ≡ value_of_element value }
{
    value.unwrap_or(Value::Undefined)
}

/// `shift`: takes the first element away, and gives it; undefined where there is none (15.4.4.9).
pub fn shift(alloc: Global, heap: &mut Heap, array: ObjectId) -> Result<Value, HeapAnswer>
    ensures ok { IfOk result (λ v. shift_of heap.old array ≡ Ok (v, heap.new)) }
    ensures err { IfErr result (λ e. (e ≡ HeapAnswer.Memory) ⊎ (shift_of heap.old array ≡ Err e)) }
{
    let length = heap.length(array);
    if length == 0 {
        set_length(alloc, heap, array, 0)?;
        return Ok(Value::Undefined);
    }
    let value = element(alloc, heap, array, 0)?;
    let last = u64::from(length - 1);
    move_forward(alloc, heap, array, 1, 0, last)?;
    cut(alloc, heap, array, last)?;
    Ok(or_undefined(value))
}

/// `unshift`: puts the arguments before the first element, and gives the new length (15.4.4.13).
pub fn unshift(
    alloc: Global,
    heap: &mut Heap,
    array: ObjectId,
    args: &[Value],
) -> Result<Value, HeapAnswer>
    ensures ok { IfOk result (λ v. unshift_of heap.old array args.now ≡ Ok (v, heap.new)) }
    ensures err { IfErr result (λ e. (e ≡ HeapAnswer.Memory) ⊎ (unshift_of heap.old array args.now ≡ Err e)) }
{
    let length = u64::from(heap.length(array));
    let count = args.len() as u64;
    move_backward(alloc, heap, array, 0, count, length)?;
    put_all(alloc, heap, array, 0, args)?;
    give_length(alloc, heap, array, length + count)
}
