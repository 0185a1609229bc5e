// A statement is begun.
ghost use Rattle.js_evaluation.specs.Statements as rule;
ghost use Rattle.js_evaluation.specs.Scoping.{by_slots};
ghost use Rattle.js_machine.specs.Moves.{Moves, at};

use crate::attempts::tried;
use crate::for_in::for_in_loop;
use crate::for_loop::for_loop;
use crate::loops::{do_loop, while_loop};
use crate::simple::{branches_from, evaluate_alone, returned, statements_from, thrown};
use crate::switch::switched;
use crate::variables::variables_from;
use heap_values::Value;
use js_frames::{ForInLoop, ForLoop};
use js_machine::{Machine, Now, Step};
use js_tree::{Statement, StatementNode};
use run_trees::Abrupt;

/// What a statement does, behind its charge.
pub fn statement_node<'p>(machine: &mut Machine<'p>, s: &'p Statement) -> Step<'p>
    ensures { Moves (at machine.old (rule.statement_node by_slots) s.entry.now) machine.old result machine.new }
{
    let place = s.place;
    match &s.node {
        StatementNode::Block(all) => statements_from(machine, all.as_slice()),
        StatementNode::Empty => Ok(Now::Back(Ok(Value::Undefined))),
        StatementNode::Expression(e) => evaluate_alone(machine, e),
        StatementNode::Debugger => Ok(Now::Back(Ok(Value::Undefined))),
        StatementNode::Var(all) => variables_from(machine, place, all.as_slice()),
        StatementNode::If(all, last) => branches_from(machine, all.as_slice(), last),
        StatementNode::DoWhile(body, condition) => do_loop(machine, place, body, condition),
        StatementNode::While(condition, body) => while_loop(machine, place, condition, body),
        StatementNode::For(start, condition, step, body) => {
            let looped = ForLoop {
                condition,
                step,
                body,
                place,
            };
            for_loop(machine, start, looped)
        }
        StatementNode::ForIn(target, object, body) => {
            let looped = ForInLoop {
                target,
                body,
                place,
            };
            for_in_loop(machine, object, looped)
        }
        StatementNode::Continue => Ok(Now::Back(Err(Abrupt::Continued(())))),
        StatementNode::Break => Ok(Now::Back(Err(Abrupt::Broken(())))),
        StatementNode::Return(value) => returned(machine, value),
        StatementNode::Throw(value) => thrown(machine, value, place),
        StatementNode::Switch(value, clauses) => switched(machine, value, clauses.as_slice()),
        StatementNode::Try(block, handler, last) => tried(machine, place, block, handler, last),
        StatementNode::Function(_, _) => Ok(Now::Back(Ok(Value::Undefined))),
    }
}
