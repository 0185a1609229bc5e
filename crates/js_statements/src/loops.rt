// `while` and `do` loops (ECMA-262 5.1, sections 12.6.1 and 12.6.2).
ghost use Rattle.std.specs.Prelude.{Err, Ok};
ghost use Rattle.js_frames.specs.RestOf.{do_next, do_turns, while_turns};
ghost use Rattle.js_frames.specs.declared.frame.Frame.TheVariants as frame;
ghost use Rattle.js_frames.specs.declared.statement_frame.LoopFrame.TheVariants as of_loop;
ghost use Rattle.js_machine.specs.Moves.{Leads, Moves, at, resumed};
ghost use Rattle.js_statements.specs.Loops as spec;

use heap_steps::Halt;
use heap_values::Value;
use js_convert::to_boolean;
use js_evaluation::{FaultCode, Thrown};
use js_frames::{Frame, LoopFrame, WhileLoop};
use js_machine::{Machine, Now, Step};
use js_tree::{Expression, Place, Statement};
use run_trees::Abrupt;

/// A `while` loop, with one turn more than there is fuel.
pub fn while_loop<'p>(
    machine: &mut Machine<'p>,
    place: Place,
    condition: &'p Expression,
    body: &'p Statement,
) -> Step<'p>
    ensures { Moves (at machine.old spec.while_loop place condition.entry.now body.entry.now) machine.old result machine.new }
{
    let turns = machine.state.fuel;
    let looped = WhileLoop {
        condition,
        body,
        place,
    };
    let frame = LoopFrame::WhileCondition { turns, looped };
    machine.evaluate(condition, Frame::Loop(frame))
}

/// The next turn of a `while` loop, if so many are left.
pub fn while_turn<'p>(machine: &mut Machine<'p>, turns: u64, looped: WhileLoop<'p>) -> Step<'p>
    ensures { Moves (at machine.old while_turns turns looped.entry) machine.old result machine.new }
{
    if turns == 0 {
        return Err(Halt::Fault {
            code: FaultCode::FuelSpent,
            place: looped.place,
        });
    }
    let turns = turns - 1;
    let frame = LoopFrame::WhileCondition { turns, looped };
    machine.evaluate(looped.condition, Frame::Loop(frame))
}

/// The condition of a `while` loop has this value.
pub fn while_tested<'p>(
    machine: &mut Machine<'p>,
    turns: u64,
    looped: WhileLoop<'p>,
    value: &Value,
) -> Step<'p>
    ensures { Leads (at machine.old resumed (frame.Loop (of_loop.WhileCondition turns looped.entry)) (Ok value.now)) machine.old result machine.new }
{
    if to_boolean(value) {
        let frame = LoopFrame::WhileBody { turns, looped };
        machine.execute(looped.body, Frame::Loop(frame))
    } else {
        Ok(Now::Back(Ok(Value::Undefined)))
    }
}

/// The body of a `while` loop ends abruptly.
pub fn while_stopped<'p>(
    machine: &mut Machine<'p>,
    turns: u64,
    looped: WhileLoop<'p>,
    stop: Abrupt<Thrown, Value, ()>,
) -> Step<'p>
    ensures { Leads (at machine.old resumed (frame.Loop (of_loop.WhileBody turns looped.entry)) (Err stop)) machine.old result machine.new }
{
    match stop {
        Abrupt::Thrown(thrown) => Ok(Now::Back(Err(Abrupt::Thrown(thrown)))),
        Abrupt::Returned(value) => Ok(Now::Back(Err(Abrupt::Returned(value)))),
        Abrupt::Broken(()) => Ok(Now::Back(Ok(Value::Undefined))),
        Abrupt::Continued(()) => while_turn(machine, turns, looped),
    }
}

/// A `do` loop, with one turn more than there is fuel.
pub fn do_loop<'p>(
    machine: &mut Machine<'p>,
    place: Place,
    body: &'p Statement,
    condition: &'p Expression,
) -> Step<'p>
    ensures { Moves (at machine.old spec.do_loop place body.entry.now condition.entry.now) machine.old result machine.new }
{
    let turns = machine.state.fuel;
    let looped = WhileLoop {
        condition,
        body,
        place,
    };
    let frame = LoopFrame::DoBody { turns, looped };
    machine.execute(body, Frame::Loop(frame))
}

/// The next turn of a `do` loop, if so many are left.
fn do_turn<'p>(machine: &mut Machine<'p>, turns: u64, looped: WhileLoop<'p>) -> Step<'p>
    ensures { Moves (at machine.old do_turns turns looped.entry) machine.old result machine.new }
{
    if turns == 0 {
        return Err(Halt::Fault {
            code: FaultCode::FuelSpent,
            place: looped.place,
        });
    }
    let turns = turns - 1;
    let frame = LoopFrame::DoBody { turns, looped };
    machine.execute(looped.body, Frame::Loop(frame))
}

/// The condition of a `do` loop, behind its body.
pub fn do_test<'p>(machine: &mut Machine<'p>, turns: u64, looped: WhileLoop<'p>) -> Step<'p>
    ensures { Moves (at machine.old do_next turns looped.entry) machine.old result machine.new }
{
    let frame = LoopFrame::DoCondition { turns, looped };
    machine.evaluate(looped.condition, Frame::Loop(frame))
}

/// The condition of a `do` loop has this value.
pub fn do_tested<'p>(
    machine: &mut Machine<'p>,
    turns: u64,
    looped: WhileLoop<'p>,
    value: &Value,
) -> Step<'p>
    ensures { Leads (at machine.old resumed (frame.Loop (of_loop.DoCondition turns looped.entry)) (Ok value.now)) machine.old result machine.new }
{
    if to_boolean(value) {
        do_turn(machine, turns, looped)
    } else {
        Ok(Now::Back(Ok(Value::Undefined)))
    }
}

/// The body of a `do` loop ends abruptly.
pub fn do_stopped<'p>(
    machine: &mut Machine<'p>,
    turns: u64,
    looped: WhileLoop<'p>,
    stop: Abrupt<Thrown, Value, ()>,
) -> Step<'p>
    ensures { Leads (at machine.old resumed (frame.Loop (of_loop.DoBody turns looped.entry)) (Err stop)) machine.old result machine.new }
{
    match stop {
        Abrupt::Thrown(thrown) => Ok(Now::Back(Err(Abrupt::Thrown(thrown)))),
        Abrupt::Returned(value) => Ok(Now::Back(Err(Abrupt::Returned(value)))),
        Abrupt::Broken(()) => Ok(Now::Back(Ok(Value::Undefined))),
        Abrupt::Continued(()) => do_test(machine, turns, looped),
    }
}
