// What comes back to an open expression.
ghost use Rattle.js_frames.specs.Parts.{reference_of};
ghost use Rattle.js_frames.specs.RestOf.{after_expression, after_suffix, after_target};
ghost use Rattle.js_machine.specs.Moves.{Leads, Moves, at};

use crate::assignments::{assigned_operand, target_done, value_done};
use crate::primitives::primitive;
use crate::rows::{operand_done, operands_from};
use crate::suffixes::{applied, first_referred, index_done, key_done};
use crate::unary::{target_deleted, target_type, type_done};
use crate::updates::update_done;
use heap_values::Value;
use js_convert::to_boolean;
use js_frames::{ExpressionFrame, Methods, Reference, SuffixFrame, TargetFrame, Wanted};
use js_machine::{Machine, Now, Step};
use js_primary::{
    argument_done, called_new, chosen, comma_from, item_done, new_argument_done, property_done,
};

/// A part within an expression has a value.
pub fn expression_back<'p>(
    machine: &mut Machine<'p>,
    part: ExpressionFrame<'p>,
    value: Value,
) -> Step<'p>
    ensures { Moves (at machine.old after_expression part.entry value) machine.old result machine.new }
{
    match part {
        ExpressionFrame::Item {
            array,
            count,
            rest,
            place,
        } => item_done(machine, array, count, rest, place, value),
        ExpressionFrame::Property {
            object,
            name,
            rest,
            place,
        } => property_done(machine, object, name, rest, place, value),
        ExpressionFrame::Callee { left, place } => called_new(machine, value, left, place),
        ExpressionFrame::NewArgument {
            callee,
            done,
            left,
            place,
        } => new_argument_done(machine, callee, done, left, place, value),
        ExpressionFrame::DeleteValue => Ok(Now::Back(Ok(Value::Bool(true)))),
        ExpressionFrame::Void => Ok(Now::Back(Ok(Value::Undefined))),
        ExpressionFrame::TypeOf => type_done(machine, &value),
        ExpressionFrame::Plus { place } => {
            primitive(
                machine,
                Methods::ForNumber,
                value,
                place,
                Wanted::Plus { place },
            )
        }
        ExpressionFrame::Minus { place } => {
            primitive(
                machine,
                Methods::ForNumber,
                value,
                place,
                Wanted::Minus { place },
            )
        }
        ExpressionFrame::BitNot { place } => {
            primitive(
                machine,
                Methods::ForNumber,
                value,
                place,
                Wanted::BitNot { place },
            )
        }
        ExpressionFrame::Not => Ok(Now::Back(Ok(Value::Bool(!to_boolean(&value))))),
        ExpressionFrame::Row { rest } => operands_from(machine, value, rest),
        ExpressionFrame::Operand {
            op,
            left,
            place,
            rest,
        } => operand_done(machine, op, left, place, rest, value),
        ExpressionFrame::Conditional { held, otherwise } => {
            chosen(machine, &value, held, otherwise)
        }
        ExpressionFrame::AssignValue { reference, place } => {
            value_done(machine, &reference, place, value)
        }
        ExpressionFrame::AssignOperand {
            op,
            old,
            reference,
            place,
        } => assigned_operand(machine, op, old, reference, place, value),
        ExpressionFrame::Comma { rest } => comma_from(machine, value, rest),
    }
}

/// A part within an expression with suffixes has a value.
pub fn suffix_back<'p>(machine: &mut Machine<'p>, part: SuffixFrame<'p>, value: Value) -> Step<'p>
    ensures { Leads (at machine.old after_suffix part.entry value) machine.old result machine.new }
{
    match part {
        SuffixFrame::First { aim, suffixes } => applied(machine, aim, value, suffixes),
        SuffixFrame::Index {
            aim,
            base,
            place,
            rest,
        } => index_done(machine, aim, base, place, rest, value),
        SuffixFrame::Key { base, place } => key_done(machine, base, place, value),
        SuffixFrame::Argument { call, done, left } => {
            argument_done(machine, call, done, left, value)
        }
        SuffixFrame::Called { aim, rest } => applied(machine, aim, value, rest),
    }
}

/// An expression within another refers to this.
pub fn target_back<'p>(
    machine: &mut Machine<'p>,
    part: TargetFrame<'p>,
    reference: Reference<'p>,
) -> Step<'p>
    ensures { Leads (at machine.old after_target part.entry (reference_of reference.entry)) machine.old result machine.new }
{
    match part {
        TargetFrame::First { aim, suffixes } => first_referred(machine, aim, reference, suffixes),
        TargetFrame::Update { form, op, place } => update_done(machine, form, op, place, reference),
        TargetFrame::Delete { place } => target_deleted(machine, &reference, place),
        TargetFrame::TypeOf => target_type(machine, &reference),
        TargetFrame::Assign { op, value, place } => {
            target_done(machine, op, value, place, reference)
        }
    }
}
