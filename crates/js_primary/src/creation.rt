// `new` (ECMA-262 5.1, section 11.2.2).
ghost use Rattle.heap_values.specs.declared.ids.Kind.TheVariants as kind;
ghost use Rattle.js_tree.specs.Tree.{expressions_of};
ghost use Rattle.js_evaluation.specs.Expressions as rule;
ghost use Rattle.js_evaluation.specs.Scoping.{by_slots};
ghost use Rattle.js_frames.specs.RestOf.{after_expression};
ghost use Rattle.js_frames.specs.declared.expression_frame.ExpressionFrame.TheVariants as of_expression;
ghost use Rattle.js_machine.specs.Moves.{Moves, at, anywhere};
ghost use Rattle.js_primary.specs.Creation as spec;

use heap_steps::Halt;
use heap_values::{Kind, ObjectId, Value};
use js_frames::{ExpressionFrame, Frame};
use js_machine::{Machine, Step};
use js_native_calls::type_error;
use js_native_table::{constructs, native_name, native_of};
use js_tree::{Expression, Place};
use utf16_text::{List, Text};

/// What is thrown where `new` stands before something that doesn't construct.
const NO_CONSTRUCTOR: &[u8] = b"not a constructor";

/// `new`: first what constructs.
pub fn new_value<'p>(
    machine: &mut Machine<'p>,
    callee: &'p Expression,
    left: &'p [Expression],
    place: Place,
) -> Step<'p>
    ensures { Moves (at machine.old (rule.new_value by_slots) place callee.entry.now (expressions_of left.entry.now)) machine.old result machine.new }
{
    let frame = ExpressionFrame::Callee { left, place };
    machine.evaluate(callee, Frame::Expression(frame))
}

/// What constructs has this value: its arguments follow.
pub fn called_new<'p>(
    machine: &mut Machine<'p>,
    callee: Value,
    left: &'p [Expression],
    place: Place,
) -> Step<'p>
    ensures { Moves (at machine.old after_expression (of_expression.Callee left.entry place) callee) machine.old result machine.new }
{
    let done = List::new(machine.alloc);
    new_arguments(machine, callee, done, left, place)
}

/// The arguments of `new` behind those that are done, and then the construction.
fn new_arguments<'p>(
    machine: &mut Machine<'p>,
    callee: Value,
    done: List<Value>,
    left: &'p [Expression],
    place: Place,
) -> Step<'p>
    ensures { Moves (at machine.old spec.new_arguments callee done (expressions_of left.entry.now) place) machine.old result machine.new }
{
    match left {
        [] => constructed(machine, &callee, done, place),
        [e, left @ ..] => {
            let frame = ExpressionFrame::NewArgument {
                callee,
                done,
                left,
                place,
            };
            machine.evaluate(e, Frame::Expression(frame))
        }
    }
}

/// An argument of `new` has this value.
pub fn new_argument_done<'p>(
    machine: &mut Machine<'p>,
    callee: Value,
    done: List<Value>,
    left: &'p [Expression],
    place: Place,
    value: Value,
) -> Step<'p>
    ensures { Moves (at machine.old after_expression (of_expression.NewArgument callee done left.entry place) value) machine.old result machine.new }
{
    let mut done = done;
    done.push(machine.alloc, value)?;
    new_arguments(machine, callee, done, left, place)
}

/// Constructs an object by a value, where that is an object which constructs.
fn constructed<'p>(
    machine: &mut Machine<'p>,
    callee: &Value,
    arguments: List<Value>,
    place: Place,
) -> Step<'p>
    ensures { Moves (anywhere machine.old (rule.constructed by_slots) callee.now arguments place) machine.old result machine.new }
{
    match callee {
        Value::Object(object) => {
            let kind = machine.state.heap.kind(*object);
            constructed_by(machine, kind, *object, arguments, place)
        }
        _ => type_error(machine, NO_CONSTRUCTOR, place),
    }
}

/// Constructs an object by an object of this kind.
fn constructed_by<'p>(
    machine: &mut Machine<'p>,
    kind: Kind,
    object: ObjectId,
    arguments: List<Value>,
    place: Place,
) -> Step<'p>
    ensures { Moves (at machine.old spec.constructed_by kind object arguments place) machine.old result machine.new }
{
    match kind {
        Kind::Function(_, _) => machine.construct(object, arguments, place, Frame::Hold),
        Kind::Native(number) => native_constructed(machine, number, object, arguments, place),
        Kind::Plain => type_error(machine, NO_CONSTRUCTOR, place),
        Kind::Array => type_error(machine, NO_CONSTRUCTOR, place),
        Kind::Error => type_error(machine, NO_CONSTRUCTOR, place),
        Kind::Pattern(_) => type_error(machine, NO_CONSTRUCTOR, place),
    }
}

/// Constructs an object by a native; one that doesn't construct is left out.
fn native_constructed<'p>(
    machine: &mut Machine<'p>,
    number: u16,
    object: ObjectId,
    arguments: List<Value>,
    place: Place,
) -> Step<'p>
    ensures { Moves (at machine.old spec.constructed_by (kind.Native number) object arguments place) machine.old result machine.new }
{
    let native = native_of(number);
    if constructs(native) {
        return machine.construct(object, arguments, place, Frame::Hold);
    }
    let name = Text::from_latin_1(machine.alloc, native_name(native))?;
    Err(Halt::LeftOut { name, place })
}
