// Arrays as texts (ECMA-262 5.1, sections 15.4.4.2 and 15.4.4.5).
ghost use Rattle.std.specs.Prelude.{◌≡◌, ◌++◌, ◌∷◌, [], IfOk, OnOk};
ghost use Rattle.std.specs.Fmt.{decimal};
ghost use Rattle.heap_values.specs.declared.value.Value.TheVariants as value_is;
ghost use Rattle.array_builtins.specs.Joining as joining;
ghost use Rattle.js_evaluation.specs.Handed as handed_is;
ghost use Rattle.js_evaluation.specs.Objects as objects;
ghost use Rattle.js_frames.specs.RestOf.{with_primitive};
ghost use Rattle.js_frames.specs.declared.wanted.Wanted.TheVariants as wanted;
ghost use Rattle.heap_steps.specs.Works.{Works};
ghost use Rattle.js_machine.specs.Moves.{Leads, Moves, at};
ghost use Rattle.js_native_calls.specs.Calls as spec;

use crate::converting::convert;
use crate::giving::give_text;
use array_builtins::{JoinAnswer, join_texts};
use heap_steps::{Halt, get_by};
use heap_values::{ObjectId, Value};
use js_convert::to_text;
use js_evaluation::FaultCode;
use js_frames::{Methods, Wanted};
use js_machine::{Machine, Now, Step};
use js_natives::charge_elements;
use js_tree::Place;
use object_heap::Heap;
use std::alloc::Global;
use utf16_text::{List, Memory, Text, TextList};
use whole_number::Whole;

/// An array as a text. handed: its receiver and the arguments, surplus ones too.
pub fn array_text<'p>(
    machine: &mut Machine<'p>,
    this: &Value,
    separator: Text,
    handed: &[Value],
    place: Place,
) -> Step<'p>
    ensures { Moves (at machine.old spec.array_text this.now separator handed.now place) machine.old result machine.new }
{
    let mut fuel = machine.state.fuel;
    charge_elements(&mut fuel, &machine.state.heap, handed, place)?;
    machine.state.fuel = fuel;
    joined_value(machine, this, separator, place)
}

/// All elements of an array as one text. Anything else has undefined; no native joins it.
fn joined_value<'p>(
    machine: &mut Machine<'p>,
    this: &Value,
    separator: Text,
    place: Place,
) -> Step<'p>
    ensures { Moves (at machine.old spec.joined_value this.now separator place) machine.old result machine.new }
{
    match this {
        Value::Object(array) => array_joined(machine, *array, separator, place),
        _ => Ok(Now::Back(Ok(Value::Undefined))),
    }
}

fn array_joined<'p>(
    machine: &mut Machine<'p>,
    array: ObjectId,
    separator: Text,
    place: Place,
) -> Step<'p>
    ensures { Moves (at machine.old spec.joined_value (value_is.Object array) separator place) machine.old result machine.new }
{
    let count = machine.state.heap.length(array);
    let texts = List::new(machine.alloc);
    joined_from(machine, count, count, array, texts, separator, place)
}

/// The last elements of an array of so many, so many as are left, become texts behind those that are there; then they
/// are joined.
fn joined_from<'p>(
    machine: &mut Machine<'p>,
    left: u32,
    count: u32,
    array: ObjectId,
    texts: TextList,
    separator: Text,
    place: Place,
) -> Step<'p>
    ensures { Moves (at machine.old spec.joined_from left count array texts separator place) machine.old result machine.new }
{
    let mut left = left;
    let mut texts = texts;
    while left > 0 {
        let index = count.saturating_sub(left);
        left -= 1;
        let heap = &mut machine.state.heap;
        let value = element(machine.alloc, heap, array, index, place)?;
        match value {
            Value::Object(object) => {
                let wanted = Wanted::Element {
                    left,
                    count,
                    array,
                    texts,
                    separator,
                    place,
                };
                return convert(machine, Methods::ForText, object, place, wanted);
            }
            value => push_text(machine.alloc, &mut texts, &value)?,
        }
    }
    give_texts(machine, &texts, &separator, place)
}

/// An element of an array has become this primitive value; those behind it follow.
pub fn element_converted<'p>(
    machine: &mut Machine<'p>,
    left: u32,
    count: u32,
    array: ObjectId,
    texts: TextList,
    separator: Text,
    place: Place,
    value: &Value,
) -> Step<'p>
    ensures { Leads (at machine.old with_primitive (wanted.Element left count array texts separator place) value.now) machine.old result machine.new }
{
    let text = to_text(machine.alloc, value)?;
    let mut texts = texts;
    texts.push(machine.alloc, text)?;
    joined_from(machine, left, count, array, texts, separator, place)
}

/// The element of an array under an index.
fn element(
    alloc: Global,
    heap: &mut Heap,
    array: ObjectId,
    index: u32,
    place: Place,
) -> Result<Value, Halt>
    ensures { Works (objects.get (value_is.Object array) (decimal index) place) heap.old result heap.new }
{
    let key = Value::Number(Whole::from(index));
    get_by(alloc, heap, &Value::Object(array), &key, place)
}

/// Puts the text of an element that is no object behind others.
fn push_text(alloc: Global, texts: &mut TextList, value: &Value) -> Result<(), Memory>
    ensures { OnOk result (texts.new ≡ texts.old ++ spec.plain_text value.now ∷ []) }
{
    let text = plain_text(alloc, value)?;
    texts.push(alloc, text)
}

/// The text of an element that is no object: undefined and null have none.
fn plain_text(alloc: Global, value: &Value) -> Result<Text, Memory>
    ensures { IfOk result (λ text. text ≡ spec.plain_text value.now) }
{
    match value {
        Value::Undefined => Text::from_latin_1(alloc, b""),
        Value::Null => Text::from_latin_1(alloc, b""),
        value => to_text(alloc, value),
    }
}

/// Gives texts with a separator between them as one text, which is counted.
fn give_texts<'p>(
    machine: &mut Machine<'p>,
    texts: &TextList,
    separator: &Text,
    place: Place,
) -> Step<'p>
    ensures { Moves (handed_is.gives_text (joining.joined separator.now texts.now) place) machine.old result machine.new }
{
    match join_texts(machine.alloc, texts, separator) {
        Ok(text) => give_text(machine, text, place),
        Err(answer) => Err(unjoined(answer, place)),
    }
}

/// What a refusal to join comes to.
fn unjoined(answer: JoinAnswer, place: Place) -> Halt
    ensures { result ≡ spec.join_refusal answer place }
{
    match answer {
        JoinAnswer::TooLong => Halt::Fault {
            code: FaultCode::StringTooLong,
            place,
        },
        JoinAnswer::Memory => Halt::Memory,
    }
}
