// Errors that natives make (ECMA-262 5.1, section 15.11).
ghost use Rattle.js_evaluation.specs.NativeWork as spec;
ghost use Rattle.heap_steps.specs.Works.{Works};

use heap_steps::{Halt, define_as, make_by};
use heap_values::{BuiltIn, Kind, ObjectId, Value};
use js_tree::Place;
use object_heap::{Heap, Marks};
use std::alloc::Global;

/// The marks of the message of an error.
const MESSAGE: Marks = Marks {
    listed: false,
    deletable: true,
};

/// Makes an error with this prototype and its message, where it has one. Undefined without a prototype.
pub fn make_error(
    alloc: Global,
    heap: &mut Heap,
    prototype: Option<BuiltIn>,
    message: Value,
    place: Place,
) -> Result<Value, Halt>
    ensures { Works (spec.make_error prototype message place) heap.old result heap.new }
{
    match prototype {
        None => Ok(Value::Undefined),
        Some(prototype) => {
            let error = make_by(alloc, heap, Kind::Error, prototype, place)?;
            error_with(alloc, heap, error, message, place)
        }
    }
}

/// An error with its message, where it has one.
fn error_with(
    alloc: Global,
    heap: &mut Heap,
    error: ObjectId,
    message: Value,
    place: Place,
) -> Result<Value, Halt>
    ensures { Works (spec.error_with error message place) heap.old result heap.new }
{
    match message {
        Value::Undefined => Ok(Value::Object(error)),
        message => {
            define_as(alloc, heap, error, b"message", message, MESSAGE, place)?;
            Ok(Value::Object(error))
        }
    }
}
