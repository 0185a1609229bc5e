// Literals (ECMA-262 5.1, sections 7.8, 11.1.4, 11.1.5 and 13).
ghost use Rattle.std.specs.Prelude.{◌≡◌, ◌+◌, IfOk, true};
ghost use Rattle.js_tree.specs.Tree.{items_of};
ghost use Rattle.js_tree.specs.View.{properties_of};
ghost use Rattle.js_evaluation.specs.Expressions as rule;
ghost use Rattle.js_evaluation.specs.Scoping.{by_slots};
ghost use Rattle.js_frames.specs.RestOf.{after_expression};
ghost use Rattle.js_frames.specs.declared.expression_frame.ExpressionFrame.TheVariants as of_expression;
ghost use Rattle.js_machine.specs.Moves.{Moves, at};

use heap_steps::{define, define_as, define_at, make_by, make_pattern, put, test_text};
use heap_values::{BuiltIn, Kind, ObjectId, Value};
use js_frames::{ExpressionFrame, Frame};
use js_machine::{Machine, Now, Step};
use js_pattern_reader::PatternLiteral;
use js_tree::{Expression, Place, Property};
use object_heap::Marks;
use utf16_text::{Memory, Text};
use whole_number::Whole;

/// The marks of what a literal gives an object.
const OWN: Marks = Marks {
    listed: true,
    deletable: true,
};

/// The marks of where the search for a pattern begins.
const HIDDEN: Marks = Marks {
    listed: false,
    deletable: false,
};

/// A text. It isn't counted, and so must be short enough.
pub fn text_literal<'p>(machine: &mut Machine<'p>, text: &'p Text, place: Place) -> Step<'p>
    ensures { Moves (rule.text_literal place text.entry.now) machine.old result machine.new }
{
    test_text(text, place)?;
    let text = text.copy(machine.alloc)?;
    Ok(Now::Back(Ok(Value::Text(text))))
}

/// A new object for a pattern, whose search begins at 0. What it says of its literal must be short enough.
pub fn pattern_literal<'p>(
    machine: &mut Machine<'p>,
    literal: &'p PatternLiteral,
    place: Place,
) -> Step<'p>
    ensures { Moves (rule.pattern_literal place literal.entry.now) machine.old result machine.new }
{
    test_text(literal.body(), place)?;
    let heap = &mut machine.state.heap;
    let pattern = make_pattern(machine.alloc, heap, literal, place)?;
    let begin = Value::Number(Whole::from(0_u32));
    define_as(
        machine.alloc,
        heap,
        pattern,
        b"lastIndex",
        begin,
        HIDDEN,
        place,
    )?;
    Ok(Now::Back(Ok(Value::Object(pattern))))
}

/// An array, made before its items are evaluated.
pub fn array_literal<'p>(
    machine: &mut Machine<'p>,
    items: &'p [Option<Expression>],
    place: Place,
) -> Step<'p>
    ensures { Moves (at machine.old (rule.array_literal by_slots) place (items_of items.entry.now)) machine.old result machine.new }
{
    let heap = &mut machine.state.heap;
    let array = make_by(
        machine.alloc,
        heap,
        Kind::Array,
        BuiltIn::ArrayPrototype,
        place,
    )?;
    items_from(machine, array, 0, false, items, place)
}

/// The items behind those that stand in an array already, of which the last is a hole or isn't.
fn items_from<'p>(
    machine: &mut Machine<'p>,
    array: ObjectId,
    count: u32,
    hole: bool,
    items: &'p [Option<Expression>],
    place: Place,
) -> Step<'p>
    ensures { Moves (at machine.old (rule.items_from by_slots) place array count hole (items_of items.entry.now)) machine.old result machine.new }
{
    let mut count = count;
    let mut hole = hole;
    let mut left = items;
    while let [item, rest @ ..] = left {
        match item {
            None => {
                count = next_count(count)?;
                hole = true;
                left = rest;
            }
            Some(e) => {
                let frame = ExpressionFrame::Item {
                    array,
                    count,
                    rest,
                    place,
                };
                return machine.evaluate(e, Frame::Expression(frame));
            }
        }
    }
    end_of_array(machine, array, count, hole, place)
}

/// One more. Memory comes where so many items can't stand in memory.
fn next_count(count: u32) -> Result<u32, Memory>
    ensures { IfOk result (λ next. next ≡ count + 1) }
{
    match count.checked_add(1) {
        Some(next) => Ok(next),
        None => Err(Memory),
    }
}

/// Holes at the end count in the length.
fn end_of_array<'p>(
    machine: &mut Machine<'p>,
    array: ObjectId,
    count: u32,
    hole: bool,
    place: Place,
) -> Step<'p>
    ensures { Moves (rule.end_of_array place array count hole) machine.old result machine.new }
{
    if hole {
        return length_written(machine, array, count, place);
    }
    Ok(Now::Back(Ok(Value::Object(array))))
}

/// Writes the length of an array, and gives the array.
fn length_written<'p>(
    machine: &mut Machine<'p>,
    array: ObjectId,
    count: u32,
    place: Place,
) -> Step<'p>
    ensures { Moves (rule.end_of_array place array count true) machine.old result machine.new }
{
    let name = Text::from_latin_1(machine.alloc, b"length")?;
    let length = Value::Number(Whole::from(count));
    let heap = &mut machine.state.heap;
    put(
        machine.alloc,
        heap,
        &Value::Object(array),
        &name,
        length,
        place,
    )?;
    Ok(Now::Back(Ok(Value::Object(array))))
}

/// An item of an array has this value.
pub fn item_done<'p>(
    machine: &mut Machine<'p>,
    array: ObjectId,
    count: u32,
    rest: &'p [Option<Expression>],
    place: Place,
    value: Value,
) -> Step<'p>
    ensures { Moves (at machine.old after_expression (of_expression.Item array count rest.entry place) value) machine.old result machine.new }
{
    let heap = &mut machine.state.heap;
    define_at(machine.alloc, heap, array, count, value, place)?;
    let count = next_count(count)?;
    items_from(machine, array, count, false, rest, place)
}

/// An object, made before its properties are evaluated.
pub fn object_literal<'p>(
    machine: &mut Machine<'p>,
    properties: &'p [Property],
    place: Place,
) -> Step<'p>
    ensures { Moves (at machine.old (rule.object_literal by_slots) place (properties_of properties.entry.now)) machine.old result machine.new }
{
    let heap = &mut machine.state.heap;
    let object = make_by(
        machine.alloc,
        heap,
        Kind::Plain,
        BuiltIn::ObjectPrototype,
        place,
    )?;
    properties_from(machine, object, properties, place)
}

fn properties_from<'p>(
    machine: &mut Machine<'p>,
    object: ObjectId,
    properties: &'p [Property],
    place: Place,
) -> Step<'p>
    ensures { Moves (at machine.old (rule.properties_from by_slots) place object (properties_of properties.entry.now)) machine.old result machine.new }
{
    match properties {
        [] => Ok(Now::Back(Ok(Value::Object(object)))),
        [property, rest @ ..] => {
            let frame = ExpressionFrame::Property {
                object,
                name: &property.name,
                rest,
                place,
            };
            machine.evaluate(&property.value, Frame::Expression(frame))
        }
    }
}

/// A property of an object has this value.
pub fn property_done<'p>(
    machine: &mut Machine<'p>,
    object: ObjectId,
    name: &'p Text,
    rest: &'p [Property],
    place: Place,
    value: Value,
) -> Step<'p>
    ensures { Moves (at machine.old after_expression (of_expression.Property object name.entry rest.entry place) value) machine.old result machine.new }
{
    let heap = &mut machine.state.heap;
    define(machine.alloc, heap, object, name, value, OWN, place)?;
    properties_from(machine, object, rest, place)
}
