// Blocks, expressions, `if`, `return` and `throw` (ECMA-262 5.1, sections 12.1 to 12.5, 12.9 and 12.13).
ghost use Rattle.js_tree.specs.Tree.{statements_of};
ghost use Rattle.js_tree.specs.View.{branches_of, optional_box, optional_statement};
ghost use Rattle.js_evaluation.specs.Statements as rule;
ghost use Rattle.js_evaluation.specs.Scoping.{by_slots};
ghost use Rattle.js_frames.specs.declared.frame.Frame.TheVariants as frame;
ghost use Rattle.js_frames.specs.declared.statement_frame.StatementFrame.TheVariants as of_statement;
ghost use Rattle.js_machine.specs.Moves.{Leads, Moves, at, evaluated, resumed};

use heap_values::Value;
use js_convert::to_boolean;
use js_frames::{Frame, StatementFrame};
use js_machine::{Machine, Now, Step};
use js_tree::{Branch, Expression, Place, Statement};
use run_trees::Abrupt;

/// Statements, one after the other.
pub fn statements_from<'p>(machine: &mut Machine<'p>, all: &'p [Statement]) -> Step<'p>
    ensures { Moves (at machine.old (rule.statements_from by_slots) (statements_of all.entry.now)) machine.old result machine.new }
{
    match all {
        [] => Ok(Now::Back(Ok(Value::Undefined))),
        [one, rest @ ..] => {
            let frame = StatementFrame::Statements { rest };
            machine.execute(one, Frame::Statement(frame))
        }
    }
}

/// The expression of a statement that is nothing else.
pub fn evaluate_alone<'p>(machine: &mut Machine<'p>, e: &'p Expression) -> Step<'p>
    ensures { Leads (at machine.old evaluated e.entry.now (frame.Statement of_statement.Evaluate)) machine.old result machine.new }
{
    machine.evaluate(e, Frame::Statement(StatementFrame::Evaluate))
}

/// What is done where no condition holds.
fn otherwise<'p>(machine: &mut Machine<'p>, last: &'p Option<Box<Statement>>) -> Step<'p>
    ensures { Moves (at machine.old (rule.otherwise by_slots) (optional_statement last.entry.now)) machine.old result machine.new }
{
    match last {
        None => Ok(Now::Back(Ok(Value::Undefined))),
        Some(s) => machine.execute(s, Frame::Hold),
    }
}

/// The first of these branches whose condition holds, or else the last part.
pub fn branches_from<'p>(
    machine: &mut Machine<'p>,
    all: &'p [Branch],
    last: &'p Option<Box<Statement>>,
) -> Step<'p>
    ensures { Moves (at machine.old (rule.branches_from by_slots) (branches_of all.entry.now) (optional_statement last.entry.now)) machine.old result machine.new }
{
    match all {
        [] => otherwise(machine, last),
        [branch, rest @ ..] => {
            let body = &branch.body;
            let frame = StatementFrame::Branch { body, rest, last };
            machine.evaluate(&branch.condition, Frame::Statement(frame))
        }
    }
}

/// The condition of a branch has this value.
pub fn branched<'p>(
    machine: &mut Machine<'p>,
    value: &Value,
    body: &'p Statement,
    rest: &'p [Branch],
    last: &'p Option<Box<Statement>>,
) -> Step<'p>
    ensures { Leads (at machine.old resumed (frame.Statement (of_statement.Branch body.entry rest.entry last.entry)) (Ok value.now)) machine.old result machine.new }
{
    if to_boolean(value) {
        machine.execute(body, Frame::Hold)
    } else {
        branches_from(machine, rest, last)
    }
}

/// `return`, with a value or without.
pub fn returned<'p>(machine: &mut Machine<'p>, value: &'p Option<Box<Expression>>) -> Step<'p>
    ensures { Moves (at machine.old (rule.returned by_slots) (optional_box value.entry.now)) machine.old result machine.new }
{
    match value {
        None => Ok(Now::Back(Err(Abrupt::Returned(Value::Undefined)))),
        Some(e) => machine.evaluate(e, Frame::Statement(StatementFrame::Return)),
    }
}

/// `throw`.
pub fn thrown<'p>(machine: &mut Machine<'p>, value: &'p Expression, place: Place) -> Step<'p>
    ensures { Leads (at machine.old evaluated value.entry.now (frame.Statement (of_statement.Throw place))) machine.old result machine.new }
{
    machine.evaluate(value, Frame::Statement(StatementFrame::Throw { place }))
}
