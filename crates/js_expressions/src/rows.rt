// Rows of binary operators (ECMA-262 5.1, sections 11.5 to 11.11).
ghost use Rattle.std.specs.Prelude.{◌≡◌};
ghost use Rattle.js_tree.specs.View.{operands_of};
ghost use Rattle.js_evaluation.specs.Expressions as rule;
ghost use Rattle.js_evaluation.specs.Scoping.{by_slots};
ghost use Rattle.js_frames.specs.RestOf.{after_expression};
ghost use Rattle.js_frames.specs.declared.expression_frame.ExpressionFrame.TheVariants as of_expression;
ghost use Rattle.js_machine.specs.Moves.{Moves, at};
ghost use Rattle.js_expressions.specs.Rows as spec;

use crate::operators::{binary, converted_object, right_object};
use heap_steps::operate;
use heap_values::Value;
use js_convert::to_boolean;
use js_frames::{ExpressionFrame, Frame, Operated};
use js_machine::{Machine, Now, Step};
use js_tree::{BinaryOp, Expression, Operand, Place};

/// A row: first its first operand.
pub fn chain<'p>(
    machine: &mut Machine<'p>,
    first: &'p Expression,
    operands: &'p [Operand],
) -> Step<'p>
    ensures { Moves (at machine.old (rule.chain by_slots) first.entry.now (operands_of operands.entry.now)) machine.old result machine.new }
{
    let frame = ExpressionFrame::Row { rest: operands };
    machine.evaluate(first, Frame::Expression(frame))
}

/// A row whose first operand may be had at once.
pub fn row<'p>(
    machine: &mut Machine<'p>,
    first: &'p Expression,
    operands: &'p [Operand],
) -> Step<'p>
    ensures { Moves (at machine.old (rule.chain by_slots) first.entry.now (operands_of operands.entry.now)) machine.old result machine.new }
{
    match machine.leaf(first)? {
        Some(value) => operands_from(machine, value, operands),
        None => chain(machine, first, operands),
    }
}

/// Whether the value before `||` or `&&` decides.
fn decides(op: BinaryOp, value: &Value) -> bool
    ensures { result ≡ spec.decides op value.now }
{
    match op {
        BinaryOp::Or => to_boolean(value),
        BinaryOp::And => !to_boolean(value),
        _ => false,
    }
}

/// The operands behind this value. One behind `||` or `&&` is evaluated only where the value doesn't decide.
pub fn operands_from<'p>(
    machine: &mut Machine<'p>,
    value: Value,
    operands: &'p [Operand],
) -> Step<'p>
    ensures { Moves (at machine.old (rule.operands_from by_slots) value (operands_of operands.entry.now)) machine.old result machine.new }
{
    let mut value = value;
    let mut left = operands;
    while let [operand, rest @ ..] = left {
        if decides(operand.op, &value) {
            left = rest;
            continue;
        }
        if !is_at_once(operand.op, &value) {
            return operand_of(machine, value, operand, rest);
        }
        let Some(right) = machine.leaf(&operand.value)? else {
            return operand_of(machine, value, operand, rest);
        };
        let (op, place) = (operand.op, operand.place);
        if let Some(object) = converted_object(op, &value, &right) {
            return right_object(machine, op, value, object, place, Operated::Row { rest });
        }
        let heap = &mut machine.state.heap;
        value = operate(machine.alloc, heap, op, &value, &right, place)?;
        left = rest;
    }
    Ok(Now::Back(Ok(value)))
}

/// Whether an operator works at once on this value and a primitive one behind it.
fn is_at_once(op: BinaryOp, left: &Value) -> bool
    ensures { result ≡ spec.is_at_once op left.now }
{
    match op {
        BinaryOp::Or => false,
        BinaryOp::And => false,
        BinaryOp::In => false,
        BinaryOp::InstanceOf => false,
        _ => !matches!(left, Value::Object(_)),
    }
}

/// An operand that is evaluated.
fn operand_of<'p>(
    machine: &mut Machine<'p>,
    value: Value,
    operand: &'p Operand,
    rest: &'p [Operand],
) -> Step<'p>
    ensures { Moves (at machine.old spec.operand_of value operand.entry.now rest.entry) machine.old result machine.new }
{
    match operand.op {
        BinaryOp::Or => chain(machine, &operand.value, rest),
        BinaryOp::And => chain(machine, &operand.value, rest),
        op => {
            let frame = ExpressionFrame::Operand {
                op,
                left: value,
                place: operand.place,
                rest,
            };
            machine.evaluate(&operand.value, Frame::Expression(frame))
        }
    }
}

/// An operand behind another operator than `||` and `&&` has this value.
pub fn operand_done<'p>(
    machine: &mut Machine<'p>,
    op: BinaryOp,
    left: Value,
    place: Place,
    rest: &'p [Operand],
    value: Value,
) -> Step<'p>
    ensures { Moves (at machine.old after_expression (of_expression.Operand op left place rest.entry) value) machine.old result machine.new }
{
    binary(machine, op, left, value, place, Operated::Row { rest })
}
