// Objects that become primitive values (ECMA-262 5.1, sections 8.12.8 and 9.1).
ghost use Rattle.std.specs.Prelude.{◌≡◌, ◌∷◌, [], MatchOption};
ghost use Rattle.js_frames.specs.Parts.{names_of};
ghost use Rattle.js_machine.specs.Moves.{Leads, at};
ghost use Rattle.js_native_calls.specs.Calls as spec;

use crate::giving::type_error;
use heap_steps::{callable, get};
use heap_values::{ObjectId, Value};
use js_frames::{Frame, Methods, Wanted};
use js_machine::{Machine, Step};
use js_tree::Place;
use utf16_text::{List, Text};

/// The next of the methods that are to be asked, and those behind it.
fn next_method(methods: Methods) -> Option<(&'static [u8], Methods)>
    ensures { MatchOption result (names_of methods ≡ []) (λ next. names_of methods ≡ next.0.now ∷ names_of next.1) }
{
    match methods {
        Methods::ForNumber => Some((b"valueOf", Methods::ToString)),
        Methods::ForText => Some((b"toString", Methods::ValueOf)),
        Methods::ToString => Some((b"toString", Methods::None)),
        Methods::ValueOf => Some((b"valueOf", Methods::None)),
        Methods::None => None,
    }
}

/// Asks the methods of an object in their order. One counts where it can be called.
pub fn convert<'p>(
    machine: &mut Machine<'p>,
    methods: Methods,
    object: ObjectId,
    place: Place,
    wanted: Wanted<'p>,
) -> Step<'p>
    ensures { Leads (at machine.old spec.converted (names_of methods) object place wanted.entry) machine.old result machine.new }
{
    let mut left = methods;
    while let Some((name, methods)) = next_method(left) {
        let name = Text::from_latin_1(machine.alloc, name)?;
        let heap = &mut machine.state.heap;
        let method = get(machine.alloc, heap, &Value::Object(object), &name, place)?;
        match callable(heap, &method) {
            None => left = methods,
            Some(function) => {
                let frame = Frame::Primitive {
                    object,
                    methods,
                    place,
                    wanted,
                };
                let arguments = List::new(machine.alloc);
                return machine.call(function, Value::Object(object), arguments, place, frame);
            }
        }
    }
    type_error(machine, b"not an object", place)
}
