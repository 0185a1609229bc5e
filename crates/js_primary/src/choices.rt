// `?:` and commas (ECMA-262 5.1, sections 11.12 and 11.14).
ghost use Rattle.js_tree.specs.Tree.{expressions_of};
ghost use Rattle.js_evaluation.specs.Expressions as rule;
ghost use Rattle.js_evaluation.specs.Scoping.{by_slots};
ghost use Rattle.js_frames.specs.RestOf.{after_expression};
ghost use Rattle.js_frames.specs.declared.expression_frame.ExpressionFrame.TheVariants as of_expression;
ghost use Rattle.js_machine.specs.Moves.{Moves, at};

use heap_values::Value;
use js_convert::to_boolean;
use js_frames::{ExpressionFrame, Frame};
use js_machine::{Machine, Now, Step};
use js_tree::Expression;

pub fn conditional<'p>(
    machine: &mut Machine<'p>,
    condition: &'p Expression,
    held: &'p Expression,
    otherwise: &'p Expression,
) -> Step<'p>
    ensures { Moves (at machine.old (rule.conditional by_slots) condition.entry.now held.entry.now otherwise.entry.now) machine.old result machine.new }
{
    let frame = ExpressionFrame::Conditional { held, otherwise };
    machine.evaluate(condition, Frame::Expression(frame))
}

/// The condition has this value.
pub fn chosen<'p>(
    machine: &mut Machine<'p>,
    value: &Value,
    held: &'p Expression,
    otherwise: &'p Expression,
) -> Step<'p>
    ensures { Moves (at machine.old after_expression (of_expression.Conditional held.entry otherwise.entry) value.now) machine.old result machine.new }
{
    if to_boolean(value) {
        machine.evaluate(held, Frame::Hold)
    } else {
        machine.evaluate(otherwise, Frame::Hold)
    }
}

/// Expressions that commas part, behind one that has this value.
pub fn comma_from<'p>(machine: &mut Machine<'p>, value: Value, all: &'p [Expression]) -> Step<'p>
    ensures { Moves (at machine.old (rule.comma_from by_slots) value (expressions_of all.entry.now)) machine.old result machine.new }
{
    match all {
        [] => Ok(Now::Back(Ok(value))),
        [one, rest @ ..] => {
            let frame = ExpressionFrame::Comma { rest };
            machine.evaluate(one, Frame::Expression(frame))
        }
    }
}
