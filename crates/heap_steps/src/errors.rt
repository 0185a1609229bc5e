// Errors of the engine's own (ECMA-262 5.1, section 15.11).
ghost use Rattle.js_evaluation.specs.State as spec;
ghost use Rattle.heap_steps.specs.Works.{Works};

use crate::Halt;
use crate::making::{define_as, make_by, test_text};
use heap_values::{BuiltIn, Kind, Value};
use js_evaluation::Thrown;
use js_tree::Place;
use object_heap::{Heap, Marks};
use std::alloc::Global;
use utf16_text::Text;

/// The marks of the message of an error.
const MESSAGE: Marks = Marks {
    listed: false,
    deletable: true,
};

/// Throws an error with this prototype and message. It gives no value.
pub fn throw_error<T: Drop>(
    alloc: Global,
    heap: &mut Heap,
    prototype: BuiltIn,
    message: Text,
    place: Place,
) -> Result<T, Halt>
    ensures { Works (spec.throw_error prototype message place) heap.old result heap.new }
{
    test_text(&message, place)?;
    let error = make_by(alloc, heap, Kind::Error, prototype, place)?;
    let text = Value::Text(message);
    define_as(alloc, heap, error, b"message", text, MESSAGE, place)?;
    Err(Halt::Throw(Thrown {
        value: Value::Object(error),
        place,
    }))
}

/// Throws a TypeError. It gives no value.
pub fn throw_type_error<T: Drop>(
    alloc: Global,
    heap: &mut Heap,
    message: &[u8],
    place: Place,
) -> Result<T, Halt>
    ensures { Works (spec.throw_type_error message.now place) heap.old result heap.new }
{
    let message = Text::from_latin_1(alloc, message)?;
    throw_error(alloc, heap, BuiltIn::TypeErrorPrototype, message, place)
}
