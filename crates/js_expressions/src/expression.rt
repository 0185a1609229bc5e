// An expression is begun.
ghost use Rattle.run_trees.specs.Runs.{pure};
ghost use Rattle.js_evaluation.specs.BySlots.{read_name};
ghost use Rattle.js_frames.specs.Parts.{context_of};
ghost use Rattle.js_evaluation.specs.Expressions as rule;
ghost use Rattle.js_evaluation.specs.Scoping.{by_slots};
ghost use Rattle.js_machine.specs.Moves.{Moves, Refers, at};

use crate::assignments::assigned;
use crate::rows::row;
use crate::suffixes::suffixed;
use crate::unary::unary;
use crate::updates::updated;
use heap_steps::read_name;
use heap_values::Value;
use js_frames::{Aim, Reference};
use js_machine::{Machine, Now, Step};
use js_primary::{
    array_literal, comma_from, conditional, function_value, new_value, object_literal,
    pattern_literal, text_literal,
};
use js_tree::{BoundName, Expression, ExpressionNode, FunctionPart, Place};

/// What an expression does, behind its charge.
#[tactic(auto, unfolding(js_evaluation::specs::Expressions::expression_node))]
pub fn expression_node<'p>(machine: &mut Machine<'p>, e: &'p Expression) -> Step<'p>
    ensures { Moves (at machine.old (rule.expression_node by_slots) e.entry.now) machine.old result machine.new }
{
    let place = e.place;
    match &e.node {
        ExpressionNode::Number(number) => Ok(Now::Back(Ok(Value::Number(*number)))),
        ExpressionNode::Text(text) => text_literal(machine, text, place),
        ExpressionNode::Pattern(literal) => pattern_literal(machine, literal, place),
        ExpressionNode::True => Ok(Now::Back(Ok(Value::Bool(true)))),
        ExpressionNode::False => Ok(Now::Back(Ok(Value::Bool(false)))),
        ExpressionNode::Null => Ok(Now::Back(Ok(Value::Null))),
        ExpressionNode::This => this(machine),
        ExpressionNode::Name(name) => named(machine, name, place),
        ExpressionNode::Array(items) => array_literal(machine, items.as_slice(), place),
        ExpressionNode::Object(all) => object_literal(machine, all.as_slice(), place),
        ExpressionNode::Function(FunctionPart::Whole(_)) => Ok(Now::Back(Ok(Value::Undefined))),
        ExpressionNode::Function(FunctionPart::Numbered(number)) => {
            function_value(machine, *number, place)
        }
        ExpressionNode::Suffixed(first, all) => {
            suffixed(machine, Aim::Value, first, all.as_slice())
        }
        ExpressionNode::New(callee, all) => new_value(machine, callee, all.as_slice(), place),
        ExpressionNode::Update(form, op, target) => updated(machine, *form, *op, target, place),
        ExpressionNode::Unary(op, operand) => unary(machine, *op, operand, place),
        ExpressionNode::Chain(first, all) => row(machine, first, all.as_slice()),
        ExpressionNode::Conditional(condition, held, otherwise) => {
            conditional(machine, condition, held, otherwise)
        }
        ExpressionNode::Assign(target, op, value) => assigned(machine, target, *op, value, place),
        ExpressionNode::Comma(all) => comma_from(machine, Value::Undefined, all.as_slice()),
    }
}

/// The `this` of the code that runs (ECMA-262 5.1, section 11.1.1).
fn this<'p>(machine: &mut Machine<'p>) -> Step<'p>
    ensures { Moves (pure machine.old.context.this) machine.old result machine.new }
{
    let value = machine.context.this.copy(machine.alloc)?;
    Ok(Now::Back(Ok(value)))
}

/// The value of a name (ECMA-262 5.1, section 11.1.2).
fn named<'p>(machine: &mut Machine<'p>, name: &'p BoundName, place: Place) -> Step<'p>
    ensures { Moves (read_name (context_of machine.old.context) name.entry.now place) machine.old result machine.new }
{
    let scope = machine.context.scope;
    let heap = &mut machine.state.heap;
    let value = read_name(machine.alloc, heap, scope, name, place)?;
    Ok(Now::Back(Ok(value)))
}

/// What an expression refers to, behind its charge (ECMA-262 5.1, section 8.7).
pub fn target_node<'p>(machine: &mut Machine<'p>, e: &'p Expression) -> Step<'p>
    ensures { Refers (at machine.old (rule.target_node by_slots) e.entry.now) machine.old result machine.new }
{
    let place = e.place;
    match &e.node {
        ExpressionNode::Name(name) => Ok(Now::Refers(Reference::Name { place, name })),
        ExpressionNode::Suffixed(first, all) => {
            suffixed(machine, Aim::Target, first, all.as_slice())
        }
        _ => Ok(Now::Refers(Reference::none())),
    }
}
