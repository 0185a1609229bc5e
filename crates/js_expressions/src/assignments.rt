// Assignment (ECMA-262 5.1, section 11.13).
ghost use Rattle.std.specs.Prelude.{◌≡◌, None, Some};
ghost use Rattle.js_evaluation.specs.Conversions.{assigned_by};
ghost use Rattle.js_frames.specs.Parts.{reference_of};
ghost use Rattle.js_evaluation.specs.Expressions as rule;
ghost use Rattle.js_evaluation.specs.Scoping.{by_slots};
ghost use Rattle.js_frames.specs.RestOf.{after_expression, after_target};
ghost use Rattle.js_frames.specs.declared.expression_frame.ExpressionFrame.TheVariants as of_expression;
ghost use Rattle.js_frames.specs.declared.target_frame.TargetFrame.TheVariants as of_target;
ghost use Rattle.js_machine.specs.Moves.{Leads, Moves, at};
ghost use Rattle.js_expressions.specs.Assignments as spec;

use crate::operators::binary;
use heap_values::Value;
use js_frames::{ExpressionFrame, Frame, Operated, Reference, TargetFrame};
use js_machine::{Machine, Now, Step, read_reference, write_reference};
use js_tree::{AssignOp, BinaryOp, Expression, Place};

/// The operator of an assignment that reads its target first.
fn operator_of(op: AssignOp) -> Option<BinaryOp>
    ensures { result ≡ assigned_by op }
{
    match op {
        AssignOp::Set => None,
        AssignOp::Add => Some(BinaryOp::Add),
        AssignOp::Subtract => Some(BinaryOp::Subtract),
        AssignOp::Multiply => Some(BinaryOp::Multiply),
        AssignOp::Divide => Some(BinaryOp::Divide),
        AssignOp::Remainder => Some(BinaryOp::Remainder),
        AssignOp::ShiftLeft => Some(BinaryOp::ShiftLeft),
        AssignOp::ShiftRight => Some(BinaryOp::ShiftRight),
        AssignOp::UnsignedShiftRight => Some(BinaryOp::UnsignedShiftRight),
        AssignOp::BitAnd => Some(BinaryOp::BitAnd),
        AssignOp::BitOr => Some(BinaryOp::BitOr),
        AssignOp::BitXor => Some(BinaryOp::BitXor),
    }
}

/// An assignment: first its target.
pub fn assigned<'p>(
    machine: &mut Machine<'p>,
    target: &'p Expression,
    op: AssignOp,
    value: &'p Expression,
    place: Place,
) -> Step<'p>
    ensures { Moves (at machine.old (rule.assigned by_slots) place target.entry.now op value.entry.now) machine.old result machine.new }
{
    match machine.leaf_target(target)? {
        Some(reference) => target_done(machine, op, value, place, reference),
        None => {
            let frame = TargetFrame::Assign { op, value, place };
            machine.refer(target, Frame::Target(frame))
        }
    }
}

/// The target refers to this; an operator reads it before the value is evaluated.
pub fn target_done<'p>(
    machine: &mut Machine<'p>,
    op: AssignOp,
    value: &'p Expression,
    place: Place,
    reference: Reference<'p>,
) -> Step<'p>
    ensures { Leads (at machine.old after_target (of_target.Assign op value.entry place) (reference_of reference.entry)) machine.old result machine.new }
{
    match operator_of(op) {
        None => target_set(machine, reference, value, place),
        Some(op) => target_read(machine, op, reference, value, place),
    }
}

/// Has the value of `=`, which is then written.
fn target_set<'p>(
    machine: &mut Machine<'p>,
    reference: Reference<'p>,
    value: &'p Expression,
    place: Place,
) -> Step<'p>
    ensures { Moves (at machine.old spec.assigned_to place (reference_of reference.entry) None value.entry.now) machine.old result machine.new }
{
    match machine.leaf(value)? {
        Some(value) => value_done(machine, &reference, place, value),
        None => {
            let frame = ExpressionFrame::AssignValue { reference, place };
            machine.evaluate(value, Frame::Expression(frame))
        }
    }
}

/// Reads the target of an assignment with an operator, and then has the value.
fn target_read<'p>(
    machine: &mut Machine<'p>,
    op: BinaryOp,
    reference: Reference<'p>,
    value: &'p Expression,
    place: Place,
) -> Step<'p>
    ensures { Moves (at machine.old spec.assigned_to place (reference_of reference.entry) (Some op) value.entry.now) machine.old result machine.new }
{
    let scope = machine.context.scope;
    let heap = &mut machine.state.heap;
    let old = read_reference(machine.alloc, heap, scope, &reference)?;
    match machine.leaf(value)? {
        Some(value) => assigned_operand(machine, op, old, reference, place, value),
        None => {
            let frame = ExpressionFrame::AssignOperand {
                op,
                old,
                reference,
                place,
            };
            machine.evaluate(value, Frame::Expression(frame))
        }
    }
}

/// The value of `=` is there.
pub fn value_done<'p>(
    machine: &mut Machine<'p>,
    reference: &Reference<'p>,
    place: Place,
    value: Value,
) -> Step<'p>
    ensures { Moves (at machine.old after_expression (of_expression.AssignValue reference.entry.now place) value) machine.old result machine.new }
{
    let written = value.copy(machine.alloc)?;
    let scope = machine.context.scope;
    let heap = &mut machine.state.heap;
    write_reference(machine.alloc, heap, scope, reference, written, place)?;
    Ok(Now::Back(Ok(value)))
}

/// The value of an assignment with an operator is there.
pub fn assigned_operand<'p>(
    machine: &mut Machine<'p>,
    op: BinaryOp,
    old: Value,
    reference: Reference<'p>,
    place: Place,
    value: Value,
) -> Step<'p>
    ensures { Moves (at machine.old after_expression (of_expression.AssignOperand op old reference.entry place) value) machine.old result machine.new }
{
    let next = Operated::Write { reference, place };
    binary(machine, op, old, value, place, next)
}
