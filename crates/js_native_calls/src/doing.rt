// What a native does with values that are converted (ECMA-262 5.1, section 15; the page on the Netscape Navigator Proxy
// Auto-Config format).
ghost use Rattle.js_evaluation.specs.PacNatives as pac;
ghost use Rattle.js_evaluation.specs.declared.native.Native.TheVariants as native_is;
ghost use Rattle.js_machine.specs.Moves.{Moves, at};
ghost use Rattle.js_native_calls.specs.Calls as spec;

use crate::errors::error_text;
use crate::joining::array_text;
use crate::searching::pattern_done;
use heap_values::Value;
use js_evaluation::{Native, PlainNative};
use js_machine::{Machine, Now, Step};
use js_natives::{argument, charge_plain_walk, charge_walk, plain_work, separator_of};
use js_tree::Place;
use pac_functions::PacFunction;
use utf16_text::{List, Text};

/// The walk and the work of a native. done: the values that it takes, converted; handed: those that it was given.
pub fn native_done<'p>(
    machine: &mut Machine<'p>,
    native: Native,
    done: List<Value>,
    handed: List<Value>,
    place: Place,
) -> Step<'p>
    ensures { Moves (at machine.old spec.native_done native done handed place) machine.old result machine.new }
{
    let given = handed.as_slice();
    match native {
        Native::Plain(native) => plain_done(machine, native, done.as_slice(), given, place),
        Native::Pac(function) => host_call(machine, function, done, place),
        Native::Pattern(native) => pattern_done(machine, native, done, given.len(), place),
        Native::ErrorToString => error_done(machine, done.as_slice(), given, place),
        Native::ArrayJoin => join_done(machine, done.as_slice(), given, place),
        Native::ArrayToString => list_done(machine, done.as_slice(), given, place),
    }
}

/// A native that calls nothing and asks nobody.
fn plain_done<'p>(
    machine: &mut Machine<'p>,
    native: PlainNative,
    values: &[Value],
    handed: &[Value],
    place: Place,
) -> Step<'p>
    ensures { Moves (at machine.old spec.native_done (native_is.Plain native) values.now handed.now place) machine.old result machine.new }
{
    let mut fuel = machine.state.fuel;
    charge_plain_walk(
        machine.alloc,
        &mut fuel,
        &machine.state.heap,
        native,
        values,
        handed.len(),
        place,
    )?;
    machine.state.fuel = fuel;
    let heap = &mut machine.state.heap;
    let value = plain_work(machine.alloc, heap, native, values, place)?;
    Ok(Now::Back(Ok(value)))
}

/// The walk of a function of the proxy format is charged, and then the host is asked or told.
fn host_call<'p>(
    machine: &mut Machine<'p>,
    function: PacFunction,
    values: List<Value>,
    place: Place,
) -> Step<'p>
    ensures { Moves (pac.pac_done function values place) machine.old result machine.new }
{
    let fuel = &mut machine.state.fuel;
    charge_walk(machine.alloc, fuel, function, values.as_slice(), place)?;
    Ok(Now::Host(function, values, place))
}

/// The text of an error, which is the first value.
fn error_done<'p>(
    machine: &mut Machine<'p>,
    values: &[Value],
    handed: &[Value],
    place: Place,
) -> Step<'p>
    ensures { Moves (at machine.old spec.native_done native_is.ErrorToString values.now handed.now place) machine.old result machine.new }
{
    let this = argument(machine.alloc, values, 0)?;
    error_text(machine, &this, place)
}

/// The first value as a text, with the second one between its elements.
fn join_done<'p>(
    machine: &mut Machine<'p>,
    values: &[Value],
    handed: &[Value],
    place: Place,
) -> Step<'p>
    ensures { Moves (at machine.old spec.native_done native_is.ArrayJoin values.now handed.now place) machine.old result machine.new }
{
    let this = argument(machine.alloc, values, 0)?;
    let between = argument(machine.alloc, values, 1)?;
    let separator = separator_of(machine.alloc, &between)?;
    array_text(machine, &this, separator, handed, place)
}

/// The first value as a text, with commas between its elements.
fn list_done<'p>(
    machine: &mut Machine<'p>,
    values: &[Value],
    handed: &[Value],
    place: Place,
) -> Step<'p>
    ensures { Moves (at machine.old spec.native_done native_is.ArrayToString values.now handed.now place) machine.old result machine.new }
{
    let this = argument(machine.alloc, values, 0)?;
    let comma = Text::from_latin_1(machine.alloc, b",")?;
    array_text(machine, &this, comma, handed, place)
}
