// Prefix operators (ECMA-262 5.1, section 11.4).
ghost use Rattle.js_tree.specs.declared.place.Place.{Place};
ghost use Rattle.js_tree.specs.declared.operators.UnaryOp.TheVariants as operator;
ghost use Rattle.heap_values.specs.declared.value.Value.{Value};
ghost use Rattle.js_evaluation.specs.Conversions as conversion;
ghost use Rattle.js_evaluation.specs.Objects.{Context};
ghost use Rattle.js_evaluation.specs.Expressions as rule;
ghost use Rattle.js_evaluation.specs.Scoping.{by_slots};
ghost use Rattle.js_frames.specs.Parts.{reference_of};
ghost use Rattle.js_frames.specs.RestOf.{after_expression, after_target};
ghost use Rattle.js_frames.specs.declared.expression_frame.ExpressionFrame.TheVariants as of_expression;
ghost use Rattle.js_frames.specs.declared.frame.Frame.TheVariants as of_frame;
ghost use Rattle.js_frames.specs.declared.target_frame.TargetFrame.TheVariants as of_target;
ghost use Rattle.heap_steps.specs.Works.{Works};
ghost use Rattle.js_machine.specs.Moves.{Leads, Moves, at, evaluated};
ghost use Rattle.std.specs.Prelude.{◌≡◌};

use heap_steps::{Halt, callable, delete_name, delete_property, get_by, read_or_undefined};
use heap_values::{ScopeId, Value};
use js_convert::to_text;
use js_frames::{ExpressionFrame, Frame, Reference, TargetFrame};
use js_grammar::is_target;
use js_machine::{Machine, Now, Step};
use js_tree::{Expression, ExpressionNode, Place, UnaryOp};
use object_heap::Heap;
use std::alloc::Global;
use utf16_text::Text;

/// A prefix operator: first its operand.
pub fn unary<'p>(
    machine: &mut Machine<'p>,
    op: UnaryOp,
    operand: &'p Expression,
    place: Place,
) -> Step<'p>
    ensures { Moves (at machine.old (rule.unary_value by_slots) place op operand.entry.now) machine.old result machine.new }
{
    match op {
        UnaryOp::Delete => delete(machine, operand, place),
        UnaryOp::Void => visit(machine, operand, ExpressionFrame::Void),
        UnaryOp::TypeOf => type_of(machine, operand),
        UnaryOp::Plus => visit(machine, operand, ExpressionFrame::Plus { place }),
        UnaryOp::Minus => visit(machine, operand, ExpressionFrame::Minus { place }),
        UnaryOp::BitNot => visit(machine, operand, ExpressionFrame::BitNot { place }),
        UnaryOp::Not => visit(machine, operand, ExpressionFrame::Not),
    }
}

/// Visits the operand of an operator.
fn visit<'p>(
    machine: &mut Machine<'p>,
    operand: &'p Expression,
    frame: ExpressionFrame<'p>,
) -> Step<'p>
    ensures { Leads (at machine.old evaluated operand.entry.now (of_frame.Expression frame.entry)) machine.old result machine.new }
{
    machine.evaluate(operand, Frame::Expression(frame))
}

/// `delete`: an expression that is no reference has nothing that could be deleted (ECMA-262 5.1, section 11.4.1).
fn delete<'p>(machine: &mut Machine<'p>, operand: &'p Expression, place: Place) -> Step<'p>
    ensures { Moves (at machine.old (rule.deleted by_slots) place operand.entry.now) machine.old result machine.new }
{
    if is_target(operand) {
        return machine.refer(operand, Frame::Target(TargetFrame::Delete { place }));
    }
    machine.evaluate(operand, Frame::Expression(ExpressionFrame::DeleteValue))
}

/// `typeof`: a name that stands for nothing has a type too (ECMA-262 5.1, section 11.4.3).
fn type_of<'p>(machine: &mut Machine<'p>, operand: &'p Expression) -> Step<'p>
    ensures { (place : Place) → Moves (at machine.old (rule.unary_value by_slots) place operator.TypeOf operand.entry.now) machine.old result machine.new }
{
    match &operand.node {
        ExpressionNode::Name(_) => machine.refer(operand, Frame::Target(TargetFrame::TypeOf)),
        _ => machine.evaluate(operand, Frame::Expression(ExpressionFrame::TypeOf)),
    }
}

/// The operand of `delete` refers to this.
pub fn target_deleted<'p>(
    machine: &mut Machine<'p>,
    reference: &Reference<'p>,
    place: Place,
) -> Step<'p>
    ensures { Leads (at machine.old after_target (of_target.Delete place) (reference_of reference.entry.now)) machine.old result machine.new }
{
    let heap = &mut machine.state.heap;
    let value = delete_reference(machine.alloc, heap, reference, place)?;
    Ok(Now::Back(Ok(value)))
}

/// Deletes what is referred to.
fn delete_reference(
    alloc: Global,
    heap: &mut Heap,
    reference: &Reference,
    place: Place,
) -> Result<Value, Halt>
    ensures { (cx : Context) → Works (rule.delete by_slots cx (reference_of reference.entry.now) place) heap.old result heap.new }
{
    match reference {
        Reference::Name { name, .. } => delete_name(alloc, heap, name, place),
        Reference::Property { base, key, .. } => {
            let name = to_text(alloc, key)?;
            delete_property(alloc, heap, base, &name, place)
        }
    }
}

/// The operand of `typeof` refers to this.
pub fn target_type<'p>(machine: &mut Machine<'p>, reference: &Reference<'p>) -> Step<'p>
    ensures { Leads (at machine.old after_target of_target.TypeOf (reference_of reference.entry.now)) machine.old result machine.new }
{
    let scope = machine.context.scope;
    let heap = &mut machine.state.heap;
    let value = value_or_undefined(machine.alloc, heap, scope, reference)?;
    type_done(machine, &value)
}

/// The value of what is referred to, for code in this scope; a name that stands for nothing is undefined.
fn value_or_undefined(
    alloc: Global,
    heap: &mut Heap,
    scope: ScopeId,
    reference: &Reference,
) -> Result<Value, Halt>
    ensures { (this : Value) → Works (rule.read_or_undefined by_slots (record { scope = scope; this = this }) (reference_of reference.entry.now)) heap.old result heap.new }
{
    match reference {
        Reference::Name { place, name } => read_or_undefined(alloc, heap, scope, name, *place),
        Reference::Property { place, base, key } => get_by(alloc, heap, base, key, *place),
    }
}

/// What `typeof` says of a value.
pub fn type_done<'p>(machine: &mut Machine<'p>, value: &Value) -> Step<'p>
    ensures { Moves (at machine.old after_expression of_expression.TypeOf value.now) machine.old result machine.new }
{
    let name = type_name(&machine.state.heap, value);
    let text = Text::from_latin_1(machine.alloc, name)?;
    Ok(Now::Back(Ok(Value::Text(text))))
}

/// The name of the type of a value, one unit a byte.
fn type_name(heap: &Heap, value: &Value) -> &'static [u8]
    ensures { result.now ≡ conversion.type_text heap.now value.now }
{
    match value {
        Value::Undefined => b"undefined",
        Value::Null => b"object",
        Value::Bool(_) => b"boolean",
        Value::Number(_) => b"number",
        Value::Text(_) => b"string",
        Value::Object(_) => match callable(heap, value) {
            None => b"object",
            Some(_) => b"function",
        },
    }
}
