// Binary operators on two values (ECMA-262 5.1, sections 11.5 to 11.10).
ghost use Rattle.std.specs.Prelude.{◌≡◌};
ghost use Rattle.heap_values.specs.declared.value.Value.TheVariants as value;
ghost use Rattle.js_convert.specs.Operators as test;
ghost use Rattle.js_evaluation.specs.Conversions as conversion;
ghost use Rattle.js_evaluation.specs.Conversions.{Call};
ghost use Rattle.js_frames.specs.RestOf as rest;
ghost use Rattle.js_frames.specs.RestOf.{after_operator, with_primitive};
ghost use Rattle.js_frames.specs.declared.wanted.Wanted.TheVariants as wanted;
ghost use Rattle.js_machine.specs.Moves.{Leads, Moves, at};
ghost use Rattle.js_expressions.specs.Operators as spec;

use crate::rows::operands_from;
use heap_steps::{callable, get, has_property, operate, stands_among};
use heap_values::{ObjectId, Value};
use js_convert::to_text;
use js_frames::{Methods, Operated, Wanted};
use js_machine::{Machine, Now, Step, write_reference};
use js_native_calls::{convert, type_error};
use js_tree::{BinaryOp, Place};
use utf16_text::Text;

/// An operator on the values of both sides.
pub fn binary<'p>(
    machine: &mut Machine<'p>,
    op: BinaryOp,
    a: Value,
    b: Value,
    place: Place,
    next: Operated<'p>,
) -> Step<'p>
    ensures { Moves (at machine.old spec.binary op a b place next.entry) machine.old result machine.new }
{
    match op {
        BinaryOp::In => is_in(machine, a, &b, place, next),
        BinaryOp::InstanceOf => instance_of(machine, &a, &b, place, next),
        op => converted(machine, op, a, b, place, next),
    }
}

/// The object on the right side, where it becomes a primitive value first.
pub fn converted_object(op: BinaryOp, a: &Value, b: &Value) -> Option<ObjectId>
    ensures { (call : Call) → result ≡ spec.converted_object call op a.now b.now }
{
    match b {
        Value::Object(object) => {
            if takes_primitives(op, a, b) {
                Some(*object)
            } else {
                None
            }
        }
        _ => None,
    }
}

/// Whether an object among the operands becomes a primitive value first.
fn takes_primitives(op: BinaryOp, a: &Value, b: &Value) -> bool
    ensures { (call : Call) → result ≡ conversion.takes_primitives call op a.now b.now }
{
    match op {
        BinaryOp::StrictEqual => false,
        BinaryOp::StrictNotEqual => false,
        BinaryOp::Equal => is_compared(a, b),
        BinaryOp::NotEqual => is_compared(a, b),
        _ => true,
    }
}

/// Whether one side is an object and the other a primitive value that isn't undefined or null.
fn is_compared(a: &Value, b: &Value) -> bool
    ensures { (call : Call) → result ≡ conversion.is_compared call a.now b.now }
{
    is_beside(a, b) || is_beside(b, a)
}

/// Whether the first is an object and the second a primitive value that isn't undefined or null.
fn is_beside(object: &Value, other: &Value) -> bool
    ensures { result ≡ spec.is_beside object.now other.now }
{
    is_object(object) && !(is_object(other) || is_nothing(other))
}

fn is_object(value: &Value) -> bool
    ensures { result ≡ test.is_object value.now }
{
    matches!(value, Value::Object(_))
}

fn is_nothing(value: &Value) -> bool
    ensures { result ≡ test.is_nothing value.now }
{
    matches!(value, Value::Undefined | Value::Null)
}

/// An operator on two values: both become primitive where it takes such.
fn converted<'p>(
    machine: &mut Machine<'p>,
    op: BinaryOp,
    a: Value,
    b: Value,
    place: Place,
    next: Operated<'p>,
) -> Step<'p>
    ensures { Moves (at machine.old spec.operate op a b place next.entry) machine.old result machine.new }
{
    if takes_primitives(op, &a, &b) {
        return both_operands(machine, op, a, b, place, next);
    }
    operated(machine, op, &a, &b, place, next)
}

/// Both sides become primitive values, the left one first.
fn both_operands<'p>(
    machine: &mut Machine<'p>,
    op: BinaryOp,
    a: Value,
    b: Value,
    place: Place,
    next: Operated<'p>,
) -> Step<'p>
    ensures { Moves (at machine.old spec.both_operands op a b place next.entry) machine.old result machine.new }
{
    match a {
        Value::Object(object) => {
            let wanted = Wanted::Left {
                op,
                right: b,
                place,
                next,
            };
            convert(machine, Methods::ForNumber, object, place, wanted)
        }
        a => right_operand(machine, op, a, b, place, next),
    }
}

/// The right side becomes a primitive value, where the left one is.
pub fn right_operand<'p>(
    machine: &mut Machine<'p>,
    op: BinaryOp,
    left: Value,
    right: Value,
    place: Place,
    next: Operated<'p>,
) -> Step<'p>
    ensures { Moves (at machine.old spec.right_operand op left right place next.entry) machine.old result machine.new }
{
    match right {
        Value::Object(right) => right_object(machine, op, left, right, place, next),
        right => operated(machine, op, &left, &right, place, next),
    }
}

/// An object on the right side becomes a primitive value, where the left one is.
pub fn right_object<'p>(
    machine: &mut Machine<'p>,
    op: BinaryOp,
    left: Value,
    right: ObjectId,
    place: Place,
    next: Operated<'p>,
) -> Step<'p>
    ensures { Moves (at machine.old spec.right_operand op left (value.Object right) place next.entry) machine.old result machine.new }
{
    let wanted = Wanted::Right {
        op,
        left,
        place,
        next,
    };
    convert(machine, Methods::ForNumber, right, place, wanted)
}

/// An operator on two primitive values, or on two values that it compares as they are.
pub fn operated<'p>(
    machine: &mut Machine<'p>,
    op: BinaryOp,
    a: &Value,
    b: &Value,
    place: Place,
    next: Operated<'p>,
) -> Step<'p>
    ensures { Moves (at machine.old rest.operate op a.now b.now place next.entry) machine.old result machine.new }
{
    let heap = &mut machine.state.heap;
    let value = operate(machine.alloc, heap, op, a, b, place)?;
    behind_operator(machine, next, value)
}

/// What comes behind an operator with this value.
fn behind_operator<'p>(machine: &mut Machine<'p>, next: Operated<'p>, value: Value) -> Step<'p>
    ensures { Moves (at machine.old after_operator next.entry value) machine.old result machine.new }
{
    match next {
        Operated::Row { rest } => operands_from(machine, value, rest),
        Operated::Write { reference, place } => {
            let written = value.copy(machine.alloc)?;
            let scope = machine.context.scope;
            let heap = &mut machine.state.heap;
            write_reference(machine.alloc, heap, scope, &reference, written, place)?;
            Ok(Now::Back(Ok(value)))
        }
    }
}

/// `in`: the right side is tested before the left one is converted (ECMA-262 5.1, section 11.8.7).
fn is_in<'p>(
    machine: &mut Machine<'p>,
    name: Value,
    object: &Value,
    place: Place,
    next: Operated<'p>,
) -> Step<'p>
    ensures { Moves (at machine.old spec.is_in name object.now place next.entry) machine.old result machine.new }
{
    match object {
        Value::Object(object) => named_in(machine, name, *object, place, next),
        _ => type_error(machine, b"not an object", place),
    }
}

fn named_in<'p>(
    machine: &mut Machine<'p>,
    name: Value,
    object: ObjectId,
    place: Place,
    next: Operated<'p>,
) -> Step<'p>
    ensures { Moves (at machine.old spec.is_in name (value.Object object) place next.entry) machine.old result machine.new }
{
    match name {
        Value::Object(name) => {
            let wanted = Wanted::In {
                object,
                place,
                next,
            };
            convert(machine, Methods::ForText, name, place, wanted)
        }
        name => with_in(machine, object, &name, place, next),
    }
}

/// Whether an object has a property of this name.
pub fn with_in<'p>(
    machine: &mut Machine<'p>,
    object: ObjectId,
    name: &Value,
    place: Place,
    next: Operated<'p>,
) -> Step<'p>
    ensures { Leads (at machine.old with_primitive (wanted.In object place next.entry) name.now) machine.old result machine.new }
{
    let name = to_text(machine.alloc, name)?;
    let value = has_property(machine.alloc, &machine.state.heap, object, &name, place)?;
    behind_operator(machine, next, value)
}

/// `instanceof`, behind the test that its right side can be called (ECMA-262 5.1, section 11.8.6).
fn instance_of<'p>(
    machine: &mut Machine<'p>,
    value: &Value,
    function: &Value,
    place: Place,
    next: Operated<'p>,
) -> Step<'p>
    ensures { Moves (at machine.old spec.instance_of value.now function.now place next.entry) machine.old result machine.new }
{
    match callable(&machine.state.heap, function) {
        None => type_error(machine, b"not a function", place),
        Some(_) => instance_by(machine, value, function, place, next),
    }
}

fn instance_by<'p>(
    machine: &mut Machine<'p>,
    value: &Value,
    function: &Value,
    place: Place,
    next: Operated<'p>,
) -> Step<'p>
    ensures { Moves (at machine.old spec.instance_by value.now function.now place next.entry) machine.old result machine.new }
{
    match value {
        Value::Object(object) => descends(machine, *object, function, place, next),
        _ => behind_operator(machine, next, Value::Bool(false)),
    }
}

/// Whether the prototype of a function is among those of an object (ECMA-262 5.1, section 15.3.5.3).
fn descends<'p>(
    machine: &mut Machine<'p>,
    object: ObjectId,
    function: &Value,
    place: Place,
    next: Operated<'p>,
) -> Step<'p>
    ensures { Moves (at machine.old spec.instance_by (value.Object object) function.now place next.entry) machine.old result machine.new }
{
    let name = Text::from_latin_1(machine.alloc, b"prototype")?;
    let heap = &mut machine.state.heap;
    let prototype = get(machine.alloc, heap, function, &name, place)?;
    let value = stands_among(machine.alloc, heap, object, &prototype, place)?;
    behind_operator(machine, next, value)
}
