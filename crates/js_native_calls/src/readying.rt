// A value that is handed to a native, before the native works.
ghost use Rattle.heap_values.specs.Views.{HeapView};
ghost use Rattle.js_evaluation.specs.Conversions.{Call};
ghost use Rattle.js_evaluation.specs.Handed as handed;
ghost use Rattle.js_evaluation.specs.NativeTable as table;
ghost use Rattle.js_native_calls.specs.Readying as spec;

use heap_steps::Halt;
use heap_values::{ObjectId, Value};
use js_evaluation::{Conversion, Native};
use js_native_table::conversion_at;
use js_natives::{argument, is_kept, settled, test_handed};
use js_tree::Place;
use object_heap::Heap;
use std::alloc::Global;

/// What becomes of a value that is handed to a native.
#[derive(Drop)]
pub enum Readied {
    /// The native takes this value.
    Value(Value),
    /// An object, which is to be asked for a primitive value.
    Asked(ObjectId),
}

/// Tests the value in a place, counted from 0, of those that are handed to a native, and makes of it what the native
/// takes. An object whose primitive value is wanted stands as it is.
pub fn ready(
    alloc: Global,
    heap: &mut Heap,
    native: Native,
    at: usize,
    values: &[Value],
    place: Place,
) -> Result<Readied, Halt>
    ensures { (call : Call) → spec.Readies call native (table.conversion_at native at) (handed.argument at values.now) place heap.old result heap.new }
{
    let conversion = conversion_at(native, at);
    let value = argument(alloc, values, at)?;
    test_handed(alloc, heap, native, conversion, &value, place)?;
    kept_or_settled(alloc, heap, conversion, value, place)
}

/// A value that is kept stays as it is, an object is to be asked, and any other value is settled at once.
fn kept_or_settled(
    alloc: Global,
    heap: &Heap,
    conversion: Conversion,
    value: Value,
    place: Place,
) -> Result<Readied, Halt>
    ensures { (call : Call) → spec.Becomes call conversion value place heap.now result }
{
    if is_kept(heap, conversion, &value) {
        return Ok(Readied::Value(value));
    }
    match value {
        Value::Object(object) => Ok(Readied::Asked(object)),
        value => Ok(Readied::Value(settled(alloc, conversion, value, place)?)),
    }
}
