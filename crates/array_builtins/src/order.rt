// The elements of an array in the opposite order.
ghost use Rattle.std.specs.Prelude.{◌≡◌, ◌⊎◌, IfOk, IfErr, OnOk, Ok, Err};
ghost use Rattle.std.specs.Fmt.{decimal};
ghost use Rattle.array_builtins.specs.Order.{exchanged, reverse_of, reversed, swapped};

use crate::elements::{delete_element, element, put_element};
use heap_values::{HeapAnswer, ObjectId, Value};
use object_heap::Heap;
use std::alloc::Global;

/// `reverse`: turns the order of the elements round, and gives the array (15.4.4.8).
pub fn reverse(alloc: Global, heap: &mut Heap, array: ObjectId) -> Result<Value, HeapAnswer>
    ensures ok { IfOk result (λ v. reverse_of heap.old array ≡ Ok (v, heap.new)) }
    ensures err { IfErr result (λ e. (e ≡ HeapAnswer.Memory) ⊎ (reverse_of heap.old array ≡ Err e)) }
{
    let length = u64::from(heap.length(array));
    swap_all(alloc, heap, array, length)?;
    Ok(Value::Object(array))
}

fn swap_all(alloc: Global, heap: &mut Heap, array: ObjectId, length: u64) -> Result<(), HeapAnswer>
    ensures ok { OnOk result (reversed heap.old array length ≡ Ok heap.new) }
    ensures err { IfErr result (λ e. (e ≡ HeapAnswer.Memory) ⊎ (reversed heap.old array length ≡ Err e)) }
{
    let half = length / 2;
    for low in 0..half {
        swap(alloc, heap, array, low, length - 1 - low)?;
    }
    Ok(())
}

// Swaps the elements at two places, either of which may be missing.
fn swap(
    alloc: Global,
    heap: &mut Heap,
    array: ObjectId,
    low: u64,
    high: u64,
) -> Result<(), HeapAnswer>
    ensures ok { OnOk result (swapped array low high heap.old ≡ Ok heap.new) }
    ensures err { IfErr result (λ e. (e ≡ HeapAnswer.Memory) ⊎ (swapped array low high heap.old ≡ Err e)) }
{
    let at_low = element(alloc, heap, array, low)?;
    let at_high = element(alloc, heap, array, high)?;
    exchange(alloc, heap, array, low, high, at_low, at_high)
}

fn exchange(
    alloc: Global,
    heap: &mut Heap,
    array: ObjectId,
    low: u64,
    high: u64,
    at_low: Option<Value>,
    at_high: Option<Value>,
) -> Result<(), HeapAnswer>
    ensures ok { OnOk result (exchanged heap.old array (decimal low) (decimal high) at_low at_high ≡ Ok heap.new) }
    ensures err { IfErr result (λ e. (e ≡ HeapAnswer.Memory) ⊎ (exchanged heap.old array (decimal low) (decimal high) at_low at_high ≡ Err e)) }
{
    match (at_low, at_high) {
        (Some(at_low), Some(at_high)) => {
            put_element(alloc, heap, array, low, at_high)?;
            put_element(alloc, heap, array, high, at_low)
        }
        (None, Some(at_high)) => {
            put_element(alloc, heap, array, low, at_high)?;
            Ok(delete_element(alloc, heap, array, high)?)
        }
        (Some(at_low), None) => {
            delete_element(alloc, heap, array, low)?;
            put_element(alloc, heap, array, high, at_low)
        }
        (None, None) => Ok(()),
    }
}
