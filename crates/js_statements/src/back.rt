// What comes back with a value to an open statement.
ghost use Rattle.std.specs.Prelude.{Ok};
ghost use Rattle.js_frames.specs.Parts.{reference_of};
ghost use Rattle.js_frames.specs.RestOf.{rest_of_target};
ghost use Rattle.js_frames.specs.declared.frame.Frame.TheVariants as frame;
ghost use Rattle.js_machine.specs.Moves.{Leads, Moves, at, resumed};

use crate::attempts::ended;
use crate::for_in::{first_named, listed, next_name, targeted};
use crate::for_loop::{for_begun, for_step, for_tested, for_turn};
use crate::loops::{do_test, do_tested, while_tested, while_turn};
use crate::simple::{branched, statements_from};
use crate::switch::{body_from, compared, from_match};
use crate::variables::initialized;
use heap_steps::Halt;
use heap_values::Value;
use js_evaluation::Thrown;
use js_frames::{LoopFrame, Reference, StatementFrame};
use js_machine::{Machine, Now, Step};
use run_trees::Abrupt;

/// A part within a statement has a value.
pub fn statement_back<'p>(
    machine: &mut Machine<'p>,
    part: StatementFrame<'p>,
    value: Value,
) -> Step<'p>
    ensures { Leads (at machine.old resumed (frame.Statement part.entry) (Ok value)) machine.old result machine.new }
{
    match part {
        StatementFrame::Statements { rest } => statements_from(machine, rest),
        StatementFrame::Evaluate => Ok(Now::Back(Ok(Value::Undefined))),
        StatementFrame::Var { name, place, rest } => initialized(machine, name, value, place, rest),
        StatementFrame::Branch { body, rest, last } => branched(machine, &value, body, rest, last),
        StatementFrame::Return => Ok(Now::Back(Err(Abrupt::Returned(value)))),
        StatementFrame::Throw { place } => Err(Halt::Throw(Thrown { value, place })),
        StatementFrame::SwitchValue { clauses } => from_match(machine, value, clauses, clauses),
        StatementFrame::SwitchTest {
            value: compared_with,
            all,
            body,
            rest,
        } => compared(machine, compared_with, &value, all, body, rest),
        StatementFrame::SwitchBody { body, rest } => body_from(machine, body, rest),
        StatementFrame::TryBlock { last, .. } => ended(machine, last, Ok(value)),
        StatementFrame::Handler { last } => ended(machine, last, Ok(value)),
        StatementFrame::Last { end } => Ok(Now::Back(end)),
    }
}

/// A part within a loop has a value.
pub fn loop_back<'p>(machine: &mut Machine<'p>, part: LoopFrame<'p>, value: Value) -> Step<'p>
    ensures { Leads (at machine.old resumed (frame.Loop part.entry) (Ok value)) machine.old result machine.new }
{
    match part {
        LoopFrame::WhileCondition { turns, looped } => while_tested(machine, turns, looped, &value),
        LoopFrame::WhileBody { turns, looped } => while_turn(machine, turns, looped),
        LoopFrame::DoBody { turns, looped } => do_test(machine, turns, looped),
        LoopFrame::DoCondition { turns, looped } => do_tested(machine, turns, looped, &value),
        LoopFrame::ForStart { looped } => for_begun(machine, looped),
        LoopFrame::ForCondition { turns, looped } => for_tested(machine, turns, looped, &value),
        LoopFrame::ForBody { turns, looped } => for_step(machine, turns, looped),
        LoopFrame::ForStep { turns, looped } => for_turn(machine, turns, looped),
        LoopFrame::ForInFirst {
            name,
            object,
            looped,
        } => first_named(machine, name, value, object, looped),
        LoopFrame::ForInObject { looped } => listed(machine, value, looped),
        LoopFrame::ForInTarget { .. } => Ok(Now::Back(Ok(value))),
        LoopFrame::ForInBody {
            object,
            names,
            looped,
        } => next_name(machine, object, names, looped),
    }
}

/// An expression within a loop refers to this. Where a value is waited for it is none, which comes up in no run.
pub fn loop_referred<'p>(
    machine: &mut Machine<'p>,
    part: LoopFrame<'p>,
    reference: &Reference<'p>,
) -> Step<'p>
    ensures { Moves (at machine.old rest_of_target part.entry (reference_of reference.entry.now)) machine.old result machine.new }
{
    match part {
        LoopFrame::ForInTarget {
            name,
            object,
            names,
            looped,
        } => targeted(machine, reference, name, object, names, looped),
        part => loop_back(machine, part, Value::Undefined),
    }
}
