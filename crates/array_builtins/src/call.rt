// A call of a method of arrays.
ghost use Rattle.std.specs.Prelude.{◌≡◌, ◌⊎◌, IfOk, IfErr, Ok, Err};
ghost use Rattle.array_builtins.specs.Call.{array_result};

use crate::ends::{pop, push, shift, unshift};
use crate::order::reverse;
use crate::parts::{concat, slice};
use crate::places::{index_of, last_index_of};
use crate::splicing::splice;
use heap_values::{HeapAnswer, ObjectId, Value};
use object_heap::Heap;
use std::alloc::Global;

/// The methods of arrays.
#[derive(Clone, Copy, Debug, PartialEq, Eq)]
pub enum ArrayMethod {
    Push,
    Pop,
    Shift,
    Unshift,
    Concat,
    Slice,
    Splice,
    Reverse,
    IndexOf,
    LastIndexOf,
}

/// Calls a method on an array (ECMA-262 5.1, section 15.4.4). The positions, which are both arguments of `slice`, the
/// first two of `splice` and the second of `indexOf` and of `lastIndexOf`, are numbers; any other value there counts as
/// undefined. The heap's refusals come as its own calls give them, and after one the array may be changed in part.
pub fn call_array(
    alloc: Global,
    heap: &mut Heap,
    which: ArrayMethod,
    receiver: ObjectId,
    args: &[Value],
) -> Result<Value, HeapAnswer>
    ensures ok { IfOk result (λ v. array_result which heap.old receiver args.now ≡ Ok (v, heap.new)) }
    ensures err { IfErr result (λ e. (e ≡ HeapAnswer.Memory) ⊎ (array_result which heap.old receiver args.now ≡ Err e)) }
{
    match which {
        ArrayMethod::Push => push(alloc, heap, receiver, args),
        ArrayMethod::Pop => pop(alloc, heap, receiver),
        ArrayMethod::Shift => shift(alloc, heap, receiver),
        ArrayMethod::Unshift => unshift(alloc, heap, receiver, args),
        ArrayMethod::Concat => concat(alloc, heap, receiver, args),
        ArrayMethod::Slice => slice(alloc, heap, receiver, args),
        ArrayMethod::Splice => splice(alloc, heap, receiver, args),
        ArrayMethod::Reverse => reverse(alloc, heap, receiver),
        ArrayMethod::IndexOf => Ok(index_of(alloc, heap, receiver, args)?),
        ArrayMethod::LastIndexOf => Ok(last_index_of(alloc, heap, receiver, args)?),
    }
}
