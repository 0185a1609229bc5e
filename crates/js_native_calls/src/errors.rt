// The text of an error (ECMA-262 5.1, section 15.11.4.4).
ghost use Rattle.std.specs.Prelude.{◌≡◌, IfOk};
ghost use Rattle.js_convert.specs.Texts.{text_of};
ghost use Rattle.js_evaluation.specs.Handed as handed;
ghost use Rattle.js_evaluation.specs.Natives as natives;
ghost use Rattle.js_frames.specs.RestOf.{with_primitive};
ghost use Rattle.js_frames.specs.declared.wanted.Wanted.TheVariants as wanted;
ghost use Rattle.js_machine.specs.Moves.{Leads, Moves, at};
ghost use Rattle.js_native_calls.specs.Calls as spec;

use crate::converting::convert;
use crate::giving::{give_text, type_error};
use heap_steps::get;
use heap_values::{ObjectId, Value};
use js_convert::to_text;
use js_frames::{Methods, Wanted};
use js_machine::{Machine, Step};
use js_tree::Place;
use std::alloc::Global;
use utf16_text::{Memory, Text};

/// The text of an error: its name and its message.
pub fn error_text<'p>(machine: &mut Machine<'p>, this: &Value, place: Place) -> Step<'p>
    ensures { Moves (at machine.old spec.error_text this.now place) machine.old result machine.new }
{
    match this {
        Value::Undefined => type_error(machine, b"not an object", place),
        Value::Null => type_error(machine, b"not an object", place),
        Value::Bool(_) => type_error(machine, b"not an object", place),
        Value::Number(_) => type_error(machine, b"not an object", place),
        Value::Text(_) => type_error(machine, b"not an object", place),
        Value::Object(error) => text_of_error(machine, *error, place),
    }
}

/// The name of an error as a text; its message follows.
fn text_of_error<'p>(machine: &mut Machine<'p>, error: ObjectId, place: Place) -> Step<'p>
    ensures { Moves (at machine.old spec.text_of_error error place) machine.old result machine.new }
{
    let key = Text::from_latin_1(machine.alloc, b"name")?;
    let heap = &mut machine.state.heap;
    let name = get(machine.alloc, heap, &Value::Object(error), &key, place)?;
    match name {
        Value::Object(object) => {
            let wanted = Wanted::ErrorName { error, place };
            convert(machine, Methods::ForText, object, place, wanted)
        }
        name => {
            let shown = name_or_error(machine.alloc, name)?;
            error_named(machine, error, &shown, place)
        }
    }
}

/// The value, or `Error` where it is undefined.
fn name_or_error(alloc: Global, name: Value) -> Result<Value, Memory>
    ensures { IfOk result (λ value. value ≡ spec.name_or_error name) }
{
    match name {
        Value::Undefined => Ok(Value::Text(Text::from_latin_1(alloc, b"Error")?)),
        name => Ok(name),
    }
}

/// The name of an error is there; its message follows.
pub fn error_named<'p>(
    machine: &mut Machine<'p>,
    error: ObjectId,
    name: &Value,
    place: Place,
) -> Step<'p>
    ensures { Leads (at machine.old with_primitive (wanted.ErrorName error place) name.now) machine.old result machine.new }
{
    let name = to_text(machine.alloc, name)?;
    let heap = &mut machine.state.heap;
    let key = Text::from_latin_1(machine.alloc, b"message")?;
    let message = get(machine.alloc, heap, &Value::Object(error), &key, place)?;
    match message {
        Value::Object(object) => {
            let wanted = Wanted::ErrorMessage { name, place };
            convert(machine, Methods::ForText, object, place, wanted)
        }
        Value::Undefined => {
            let message = Text::from_latin_1(machine.alloc, b"")?;
            give_joined(machine, &name, &message, place)
        }
        message => error_message(machine, &name, &message, place),
    }
}

/// The message of an error is there: its text is its name and message.
pub fn error_message<'p>(
    machine: &mut Machine<'p>,
    name: &Text,
    message: &Value,
    place: Place,
) -> Step<'p>
    ensures { Moves (handed.gives_text (natives.joined name.now (text_of message.now)) place) machine.old result machine.new }
{
    let message = to_text(machine.alloc, message)?;
    give_joined(machine, name, &message, place)
}

/// Gives a name and a message as one text, which is counted.
fn give_joined<'p>(machine: &mut Machine<'p>, name: &Text, message: &Text, place: Place) -> Step<'p>
    ensures { Moves (handed.gives_text (natives.joined name.now message.now) place) machine.old result machine.new }
{
    let text = joined(machine.alloc, name, message)?;
    give_text(machine, text, place)
}

/// A name and a message, of which either may be empty.
pub fn joined(alloc: Global, name: &Text, message: &Text) -> Result<Text, Memory>
    ensures { IfOk result (λ text. text ≡ natives.joined name.now message.now) }
{
    if name.is_empty() {
        return message.copy(alloc);
    }
    if message.is_empty() {
        return name.copy(alloc);
    }
    let separator = Text::from_latin_1(alloc, b": ")?;
    let behind = separator.concat(alloc, message)?;
    let text = name.concat(alloc, &behind)?;
    Ok(text)
}
