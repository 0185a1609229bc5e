// What ends abruptly in an open statement.
ghost use Rattle.std.specs.Prelude.{Err};
ghost use Rattle.js_frames.specs.declared.frame.Frame.TheVariants as frame;
ghost use Rattle.js_machine.specs.Moves.{Leads, at, resumed};

use crate::attempts::{block_stopped, ended};
use crate::for_in::names_stopped;
use crate::for_loop::for_stopped;
use crate::loops::{do_stopped, while_stopped};
use crate::switch::switch_end;
use heap_values::Value;
use js_evaluation::Thrown;
use js_frames::{LoopFrame, StatementFrame};
use js_machine::{Machine, Now, Step};
use run_trees::Abrupt;

/// A part within a statement ends abruptly.
pub fn statement_stopped<'p>(
    machine: &mut Machine<'p>,
    part: StatementFrame<'p>,
    stop: Abrupt<Thrown, Value, ()>,
) -> Step<'p>
    ensures { Leads (at machine.old resumed (frame.Statement part.entry) (Err stop)) machine.old result machine.new }
{
    match part {
        StatementFrame::SwitchTest { .. } => Ok(Now::Back(switch_end(stop))),
        StatementFrame::SwitchBody { .. } => Ok(Now::Back(switch_end(stop))),
        StatementFrame::TryBlock {
            place,
            handler,
            last,
        } => block_stopped(machine, place, handler, last, stop),
        StatementFrame::Handler { last } => ended(machine, last, Err(stop)),
        _ => Ok(Now::Back(Err(stop))),
    }
}

/// A part within a loop ends abruptly.
pub fn loop_stopped<'p>(
    machine: &mut Machine<'p>,
    part: LoopFrame<'p>,
    stop: Abrupt<Thrown, Value, ()>,
) -> Step<'p>
    ensures { Leads (at machine.old resumed (frame.Loop part.entry) (Err stop)) machine.old result machine.new }
{
    match part {
        LoopFrame::WhileBody { turns, looped } => while_stopped(machine, turns, looped, stop),
        LoopFrame::DoBody { turns, looped } => do_stopped(machine, turns, looped, stop),
        LoopFrame::ForBody { turns, looped } => for_stopped(machine, turns, looped, stop),
        LoopFrame::ForInBody {
            object,
            names,
            looped,
        } => names_stopped(machine, object, names, looped, stop),
        _ => Ok(Now::Back(Err(stop))),
    }
}
