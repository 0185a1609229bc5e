// What natives do that call nothing and ask nobody, on values that are converted.
ghost use Rattle.js_evaluation.specs.NativeWork as spec;
ghost use Rattle.heap_steps.specs.Works.{Works};

use crate::arrays::{array_made, array_work, is_array};
use crate::errors::make_error;
use crate::numbers::{is_number, number_of, number_work};
use crate::objects::{keys_value, object_of, object_text, own_property};
use crate::patterns::pattern_text;
use crate::texts::{give_text_of, string_of, text_of_units, text_work};
use crate::walks::argument;
use heap_steps::{Halt, counted};
use heap_values::Value;
use js_convert::to_boolean;
use js_evaluation::PlainNative;
use js_native_table::error_prototype;
use js_tree::Place;
use object_heap::Heap;
use std::alloc::Global;

/// What a native does with the values that it takes, which are converted: the receiver of a method, and the arguments.
pub fn plain_work(
    alloc: Global,
    heap: &mut Heap,
    native: PlainNative,
    values: &[Value],
    place: Place,
) -> Result<Value, Halt>
    ensures { Works (spec.plain_work native values.now place) heap.old result heap.new }
{
    let first = argument(alloc, values, 0)?;
    match native {
        PlainNative::FunctionPrototype => Ok(Value::Undefined),
        PlainNative::Object => object_of(alloc, heap, first, place),
        PlainNative::Array => array_made(alloc, heap, values, place),
        PlainNative::String => string_of(alloc, heap, values, place),
        PlainNative::Number => number_of(values, place),
        PlainNative::Boolean => Ok(Value::Bool(to_boolean(&first))),
        PlainNative::Error => make_error(alloc, heap, error_prototype(native), first, place),
        PlainNative::TypeError => make_error(alloc, heap, error_prototype(native), first, place),
        PlainNative::RangeError => make_error(alloc, heap, error_prototype(native), first, place),
        PlainNative::ReferenceError => {
            make_error(alloc, heap, error_prototype(native), first, place)
        }
        PlainNative::ObjectToString => object_text(alloc, heap, &first, place),
        PlainNative::ObjectValueOf => counted(heap, first, place),
        PlainNative::HasOwnProperty => own_property(alloc, heap, values, place),
        PlainNative::Keys => keys_value(alloc, heap, &first, place),
        PlainNative::IsArray => Ok(Value::Bool(is_array(heap, &first))),
        PlainNative::FromCharCode => text_of_units(alloc, heap, values, place),
        PlainNative::IsNaN => Ok(Value::Bool(!is_number(&first))),
        PlainNative::NumberValueOf => Ok(first),
        PlainNative::BooleanToString => give_text_of(alloc, heap, &first, place),
        PlainNative::BooleanValueOf => Ok(first),
        PlainNative::TextMethod(method) => text_work(alloc, heap, method, values, place),
        PlainNative::NumberMethod(method) => number_work(alloc, heap, method, values, place),
        PlainNative::ArrayMethod(method) => array_work(alloc, heap, method, values, place),
        PlainNative::PatternToString => pattern_text(alloc, heap, &first, place),
    }
}
