// Lists of values as arrays (ECMA-262 5.1, sections 10.6 and 15.4.2.1).
ghost use Rattle.std.specs.Prelude.{◌≡◌, ◌+◌, IfOk, map, true};
ghost use Rattle.std.specs.Fmt.{decimal};
ghost use Rattle.js_evaluation.specs.NativeWork as spec;
ghost use Rattle.js_evaluation.specs.Objects.{elements_from};
ghost use Rattle.js_evaluation.specs.State.{define};
ghost use Rattle.heap_steps.specs.Works.{Works};

use heap_steps::{Halt, define_at, make_by, spend};
use heap_values::{BuiltIn, Kind, ObjectId, Value};
use js_tree::Place;
use object_heap::Heap;
use std::alloc::Global;
use utf16_text::{List, Memory, Text};

/// Puts values under the indexes from 0 on, listed and deletable.
pub fn define_elements(
    alloc: Global,
    heap: &mut Heap,
    object: ObjectId,
    values: &[Value],
    place: Place,
) -> Result<(), Halt>
    ensures { Works (elements_from place object 0 values.now) heap.old result heap.new }
{
    let mut index: u32 = 0;
    let mut left = values;
    while let [value, rest @ ..] = left {
        define_element(alloc, heap, object, index, value, place)?;
        index = next(index)?;
        left = rest;
    }
    Ok(())
}

fn define_element(
    alloc: Global,
    heap: &mut Heap,
    object: ObjectId,
    index: u32,
    value: &Value,
    place: Place,
) -> Result<(), Halt>
    ensures { Works (define object (decimal index) value.now true true place) heap.old result heap.new }
{
    let element = value.copy(alloc)?;
    define_at(alloc, heap, object, index, element, place)
}

/// The next number. Memory comes past 32 bits, which nothing in memory needs.
fn next(n: u32) -> Result<u32, Memory>
    ensures { IfOk result (λ m. m ≡ n + 1) }
{
    n.checked_add(1).ok_or(Memory)
}

/// Makes an array of these values.
pub fn array_of(
    alloc: Global,
    heap: &mut Heap,
    values: &[Value],
    place: Place,
) -> Result<Value, Halt>
    ensures { Works (spec.array_of values.now place) heap.old result heap.new }
{
    let array = make_by(alloc, heap, Kind::Array, BuiltIn::ArrayPrototype, place)?;
    define_elements(alloc, heap, array, values, place)?;
    Ok(Value::Object(array))
}

/// Gives an array of texts, each of which is counted before the array is made.
pub fn give_texts(
    alloc: Global,
    heap: &mut Heap,
    texts: &[Text],
    place: Place,
) -> Result<Value, Halt>
    ensures { Works (spec.gives_texts texts.now place) heap.old result heap.new }
{
    spend_all(heap, texts, place)?;
    let values = values_of(alloc, texts)?;
    array_of(alloc, heap, values.as_slice(), place)
}

/// Counts the units of texts.
fn spend_all(heap: &mut Heap, texts: &[Text], place: Place) -> Result<(), Halt>
    ensures { Works (spec.spend_all texts.now place) heap.old result heap.new }
{
    let mut left = texts;
    while let [text, rest @ ..] = left {
        spend(heap, text, place)?;
        left = rest;
    }
    Ok(())
}

/// Texts as values, which share their units.
fn values_of(alloc: Global, texts: &[Text]) -> Result<List<Value>, Memory>
    ensures { IfOk result (λ values. values ≡ map Value.Text texts.now) }
{
    let mut values = List::new(alloc);
    let mut left = texts;
    while let [text, rest @ ..] = left {
        values.push(alloc, Value::Text(text.copy(alloc)?))?;
        left = rest;
    }
    Ok(values)
}
