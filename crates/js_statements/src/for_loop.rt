// `for` loops (ECMA-262 5.1, section 12.6.3).
ghost use Rattle.std.specs.Prelude.{Err, Ok, suc};
ghost use Rattle.js_tree.specs.View.{optional_start, start_of};
ghost use Rattle.js_frames.specs.RestOf.{for_next, for_turns};
ghost use Rattle.js_frames.specs.declared.frame.Frame.TheVariants as frame;
ghost use Rattle.js_frames.specs.declared.statement_frame.LoopFrame.TheVariants as of_loop;
ghost use Rattle.js_machine.specs.Moves.{Leads, Moves, at, executed, resumed};
ghost use Rattle.js_statements.specs.Loops as spec;

use heap_steps::Halt;
use heap_values::Value;
use js_convert::to_boolean;
use js_evaluation::{FaultCode, Thrown};
use js_frames::{ForLoop, Frame, LoopFrame};
use js_machine::{Machine, Now, Step};
use js_tree::ForStart;
use run_trees::Abrupt;

/// A `for` loop.
pub fn for_loop<'p>(
    machine: &mut Machine<'p>,
    start: &'p Option<Box<ForStart>>,
    looped: ForLoop<'p>,
) -> Step<'p>
    ensures { Moves (at machine.old spec.for_loop (optional_start start.entry.now) looped.entry) machine.old result machine.new }
{
    match start {
        None => for_begun(machine, looped),
        Some(start) => for_started(machine, start, looped),
    }
}

/// The start of a `for` loop.
fn for_started<'p>(machine: &mut Machine<'p>, start: &'p ForStart, looped: ForLoop<'p>) -> Step<'p>
    ensures { Moves (at machine.old spec.for_loop (start_of start.entry.now) looped.entry) machine.old result machine.new }
{
    let frame = Frame::Loop(LoopFrame::ForStart { looped });
    match start {
        ForStart::Var(place, all) => machine.declare(*place, all.as_slice(), frame),
        ForStart::Expression(e) => machine.evaluate(e, frame),
    }
}

/// A `for` loop behind its start, with one turn more than there is fuel.
pub fn for_begun<'p>(machine: &mut Machine<'p>, looped: ForLoop<'p>) -> Step<'p>
    ensures { Moves (at machine.old spec.for_begun looped.entry) machine.old result machine.new }
{
    let turns = machine.state.fuel;
    for_test(machine, turns, looped)
}

/// The next turn, if so many are left.
pub fn for_turn<'p>(machine: &mut Machine<'p>, turns: u64, looped: ForLoop<'p>) -> Step<'p>
    ensures { Moves (at machine.old for_turns turns looped.entry) machine.old result machine.new }
{
    if turns == 0 {
        return Err(Halt::Fault {
            code: FaultCode::FuelSpent,
            place: looped.place,
        });
    }
    for_test(machine, turns - 1, looped)
}

/// The condition of a turn behind which so many are left; one that is left out holds.
fn for_test<'p>(machine: &mut Machine<'p>, turns: u64, looped: ForLoop<'p>) -> Step<'p>
    ensures { Moves (at machine.old for_turns (suc turns) looped.entry) machine.old result machine.new }
{
    match looped.condition {
        None => for_body(machine, turns, looped),
        Some(condition) => {
            let frame = LoopFrame::ForCondition { turns, looped };
            machine.evaluate(condition, Frame::Loop(frame))
        }
    }
}

/// The body of a turn.
fn for_body<'p>(machine: &mut Machine<'p>, turns: u64, looped: ForLoop<'p>) -> Step<'p>
    ensures { Leads (at machine.old executed looped.entry.body.now (frame.Loop (of_loop.ForBody turns looped.entry))) machine.old result machine.new }
{
    let frame = LoopFrame::ForBody { turns, looped };
    machine.execute(looped.body, Frame::Loop(frame))
}

/// The condition has this value.
pub fn for_tested<'p>(
    machine: &mut Machine<'p>,
    turns: u64,
    looped: ForLoop<'p>,
    value: &Value,
) -> Step<'p>
    ensures { Leads (at machine.old resumed (frame.Loop (of_loop.ForCondition turns looped.entry)) (Ok value.now)) machine.old result machine.new }
{
    if to_boolean(value) {
        for_body(machine, turns, looped)
    } else {
        Ok(Now::Back(Ok(Value::Undefined)))
    }
}

/// The step, behind the body.
pub fn for_step<'p>(machine: &mut Machine<'p>, turns: u64, looped: ForLoop<'p>) -> Step<'p>
    ensures { Moves (at machine.old for_next turns looped.entry) machine.old result machine.new }
{
    match looped.step {
        None => for_turn(machine, turns, looped),
        Some(step) => {
            let frame = LoopFrame::ForStep { turns, looped };
            machine.evaluate(step, Frame::Loop(frame))
        }
    }
}

/// The body of a `for` loop ends abruptly.
pub fn for_stopped<'p>(
    machine: &mut Machine<'p>,
    turns: u64,
    looped: ForLoop<'p>,
    stop: Abrupt<Thrown, Value, ()>,
) -> Step<'p>
    ensures { Leads (at machine.old resumed (frame.Loop (of_loop.ForBody turns looped.entry)) (Err stop)) machine.old result machine.new }
{
    match stop {
        Abrupt::Thrown(thrown) => Ok(Now::Back(Err(Abrupt::Thrown(thrown)))),
        Abrupt::Returned(value) => Ok(Now::Back(Err(Abrupt::Returned(value)))),
        Abrupt::Broken(()) => Ok(Now::Back(Ok(Value::Undefined))),
        Abrupt::Continued(()) => for_step(machine, turns, looped),
    }
}
