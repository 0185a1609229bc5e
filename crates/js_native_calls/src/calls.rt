// Calls of natives (ECMA-262 5.1, section 15).
ghost use Rattle.std.specs.Prelude.{◌≡◌, ◌∷◌, IfOk};
ghost use Rattle.js_evaluation.specs.NativeTable as table;
ghost use Rattle.js_machine.specs.Moves.{Moves, at};
ghost use Rattle.js_native_calls.specs.Calls as spec;

use crate::handed::values_converted;
use heap_values::Value;
use js_evaluation::Native;
use js_machine::{Machine, Now, Step};
use js_native_table::{is_method, native_of, taken_by};
use js_tree::Place;
use utf16_text::{List, Memory};

/// What the call of the native of a number does. A number that no native has gives undefined; no rule calls it.
pub fn native_call<'p>(
    machine: &mut Machine<'p>,
    number: u16,
    this: Value,
    arguments: List<Value>,
    place: Place,
) -> Step<'p>
    ensures { Moves (at machine.old spec.native_call number this arguments place) machine.old result machine.new }
{
    match native_of(number) {
        None => Ok(Now::Back(Ok(Value::Undefined))),
        Some(native) => native_value(machine, native, this, arguments, place),
    }
}

/// What a native does with its `this` and its arguments.
fn native_value<'p>(
    machine: &mut Machine<'p>,
    native: Native,
    this: Value,
    arguments: List<Value>,
    place: Place,
) -> Step<'p>
    ensures { Moves (at machine.old spec.native_value native this arguments place) machine.old result machine.new }
{
    let handed = handed_to(native, this, arguments)?;
    let left = taken_by(native, handed.len());
    let done = List::new(machine.alloc);
    values_converted(machine, native, left, done, handed, place)
}

/// The values that are handed to a native: the receiver of a method stands ahead of the arguments.
fn handed_to(native: Native, this: Value, arguments: List<Value>) -> Result<List<Value>, Memory>
    ensures { IfOk result (λ handed. handed ≡ table.handed_to native this arguments) }
{
    if is_method(native) {
        ahead_of(this, arguments)
    } else {
        Ok(arguments)
    }
}

/// A value ahead of others, which are moved.
fn ahead_of(first: Value, others: List<Value>) -> Result<List<Value>, Memory>
    ensures { IfOk result (λ all. all ≡ first ∷ others) }
{
    let mut all = others.into_vec();
    all.insert(0, first)?;
    Ok(List::from_vec(all))
}
