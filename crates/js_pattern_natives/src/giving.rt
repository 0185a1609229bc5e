// What searches give: pieces of the text as arrays.
ghost use Rattle.std.specs.Prelude.{◌≡◌, ◌≤◌, IfOk, IfSome, length, map};
ghost use Rattle.heap_steps.specs.Works.{Works};
ghost use Rattle.heap_values.specs.declared.value.Value.TheVariants as value_is;
ghost use Rattle.js_evaluation.specs.Patterns as spec;
ghost use Rattle.js_pattern.specs.Within.{SpanWithin, SpansWithin};
ghost use Rattle.js_regex.specs.Finds.{MatchWithin, found_of};
ghost use Rattle.pattern_builtins.specs.Pieces.{found_in};
ghost use Rattle.utf16_text.specs.declared.limits.TheConstants.{LONGEST_TEXT};

use heap_steps::{Halt, counted, define_as, spend};
use heap_values::{ObjectId, Value};
use js_evaluation::FaultCode;
use js_natives::array_of;
use js_regex::{Match, Span};
use js_tree::Place;
use object_heap::{Heap, Marks};
use pattern_builtins::pieces_of_match;
use std::alloc::Global;
use utf16_text::{List, Memory, Text};
use whole_number::Whole;

/// The marks of what the array of a match has.
const OPEN: Marks = Marks {
    listed: true,
    deletable: true,
};

/// A piece of a text as a value: undefined where there is none.
fn piece_value(alloc: Global, text: &Text, piece: &Option<Span>) -> Result<Value, Memory>
    requires { SpanWithin (length text.now) piece.now }
    ensures { IfOk result (λ value. value ≡ spec.piece_value text.now piece.now) }
{
    match piece {
        None => Ok(Value::Undefined),
        Some(span) => Ok(Value::Text(text.slice(alloc, span.from, span.to)?)),
    }
}

fn piece_values(alloc: Global, text: &Text, pieces: &[Option<Span>]) -> Result<List<Value>, Memory>
    requires { SpansWithin (length text.now) pieces.now }
    ensures { IfOk result (λ values. values ≡ map (spec.piece_value text.now) pieces.now) }
{
    let mut values = List::new(alloc);
    let mut left = pieces;
    while let [piece, rest @ ..] = left {
        values.push(alloc, piece_value(alloc, text, piece)?)?;
        left = rest;
    }
    Ok(values)
}

/// Counts the units of a text; any other value has none.
fn spend_value(heap: &mut Heap, value: &Value, place: Place) -> Result<(), Halt>
    ensures { Works (spec.spend_value value.now place) heap.old result heap.new }
{
    match value {
        Value::Text(text) => spend(heap, text, place),
        _ => Ok(()),
    }
}

fn spend_values(heap: &mut Heap, values: &[Value], place: Place) -> Result<(), Halt>
    ensures { Works (spec.spend_values values.now place) heap.old result heap.new }
{
    let mut left = values;
    while let [value, rest @ ..] = left {
        spend_value(heap, value, place)?;
        left = rest;
    }
    Ok(())
}

/// Gives an array of values, whose texts are counted before it is made.
fn give_values(
    alloc: Global,
    heap: &mut Heap,
    values: &[Value],
    place: Place,
) -> Result<Value, Halt>
    ensures { Works (spec.gives_values values.now place) heap.old result heap.new }
{
    spend_values(heap, values, place)?;
    array_of(alloc, heap, values, place)
}

/// Gives an array of pieces of a text.
pub(crate) fn give_pieces(
    alloc: Global,
    heap: &mut Heap,
    text: &Text,
    pieces: &[Option<Span>],
    place: Place,
) -> Result<Value, Halt>
    requires { SpansWithin (length text.now) pieces.now }
    ensures { Works (spec.gives_pieces text.now pieces.now place) heap.old result heap.new }
{
    let values = piece_values(alloc, text, pieces)?;
    give_values(alloc, heap, values.as_slice(), place)
}

/// Gives an array of pieces of a text, and null where there is none.
pub(crate) fn give_matches(
    alloc: Global,
    heap: &mut Heap,
    text: &Text,
    pieces: &[Option<Span>],
    place: Place,
) -> Result<Value, Halt>
    requires { SpansWithin (length text.now) pieces.now }
    ensures { Works (spec.gives_matches text.now pieces.now place) heap.old result heap.new }
{
    if pieces.is_empty() {
        return Ok(Value::Null);
    }
    give_pieces(alloc, heap, text, pieces, place)
}

/// Gives a match as `exec` does: null where there is none (ECMA-262 5.1, section 15.10.6.2).
pub(crate) fn give_match(
    alloc: Global,
    heap: &mut Heap,
    text: &Text,
    found: &Option<Match>,
    place: Place,
) -> Result<Value, Halt>
    requires short { length text.now ≤ LONGEST_TEXT }
    requires within { IfSome found.now (MatchWithin (length text.now)) }
    ensures { Works (spec.match_value text.now (found_of found.now) place) heap.old result heap.new }
{
    match found {
        None => Ok(Value::Null),
        Some(found) => give_groups(alloc, heap, text, found, place),
    }
}

/// Gives the array of a match and its groups, with the place of the match and the text.
fn give_groups(
    alloc: Global,
    heap: &mut Heap,
    text: &Text,
    found: &Match,
    place: Place,
) -> Result<Value, Halt>
    requires short { length text.now ≤ LONGEST_TEXT }
    requires within { MatchWithin (length text.now) found.now }
    ensures { Works (spec.match_value text.now (Some (found_in found.now)) place) heap.old result heap.new }
{
    let pieces = pieces_of_match(alloc, found)?;
    let array = give_pieces(alloc, heap, text, pieces.as_slice(), place)?;
    match array {
        Value::Object(object) => describe(alloc, heap, object, text, found, place),
        array => Ok(array),
    }
}

/// Puts the place of a match and the text at its array.
fn describe(
    alloc: Global,
    heap: &mut Heap,
    array: ObjectId,
    text: &Text,
    found: &Match,
    place: Place,
) -> Result<Value, Halt>
    requires short { length text.now ≤ LONGEST_TEXT }
    requires within { MatchWithin (length text.now) found.now }
    ensures { Works (spec.with_match (value_is.Object array) text.now (found_in found.now) place) heap.old result heap.new }
{
    let index = Value::Number(Whole::from(found.from as u32));
    define_as(alloc, heap, array, b"index", index, OPEN, place)?;
    let input = Value::Text(text.copy(alloc)?);
    define_as(alloc, heap, array, b"input", input, OPEN, place)?;
    Ok(Value::Object(array))
}

/// Gives a text with matches replaced; None is one that would be too long.
pub(crate) fn give_replaced(
    heap: &mut Heap,
    made: Option<Text>,
    place: Place,
) -> Result<Value, Halt>
    ensures { Works (spec.replaced_value made place) heap.old result heap.new }
{
    match made {
        None => Err(Halt::Fault {
            code: FaultCode::StringTooLong,
            place,
        }),
        Some(text) => counted(heap, Value::Text(text), place),
    }
}
