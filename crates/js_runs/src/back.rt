// A part has ended, and the one around it goes on.
ghost use Rattle.std.specs.Prelude.{Err, Ok};
ghost use Rattle.js_frames.specs.Parts.{reference_of};
ghost use Rattle.js_machine.specs.Moves.{Leads, at, reached, resumed};

use heap_values::Value;
use js_entries::{entry_back, entry_stopped};
use js_evaluation::Thrown;
use js_expressions::{expression_back, method_done, suffix_back, target_back};
use js_frames::{Frame, Reference};
use js_machine::{Machine, Now, Step};
use js_statements::{loop_back, loop_referred, loop_stopped, statement_back, statement_stopped};
use run_trees::Abrupt;

/// The part within has given a value.
pub fn back<'p>(machine: &mut Machine<'p>, frame: Frame<'p>, value: Value) -> Step<'p>
    ensures { Leads (at machine.old resumed frame.entry (Ok value)) machine.old result machine.new }
{
    match frame {
        Frame::Hold => Ok(Now::Back(Ok(value))),
        Frame::Expression(part) => expression_back(machine, part, value),
        Frame::Suffix(part) => suffix_back(machine, part, value),
        Frame::Target(_) => Ok(Now::Back(Ok(value))),
        Frame::Statement(part) => statement_back(machine, part, value),
        Frame::Loop(part) => loop_back(machine, part, value),
        Frame::Entry(part) => entry_back(machine, part),
        Frame::Primitive {
            object,
            methods,
            place,
            wanted,
        } => method_done(machine, object, methods, place, wanted, value),
    }
}

/// An expression within refers to this. Where a value is waited for it is none, which comes up in no run.
pub fn referred<'p>(
    machine: &mut Machine<'p>,
    frame: Frame<'p>,
    reference: Reference<'p>,
) -> Step<'p>
    ensures { Leads (at machine.old reached frame.entry (reference_of reference.entry)) machine.old result machine.new }
{
    match frame {
        Frame::Hold => Ok(Now::Refers(reference)),
        Frame::Target(part) => target_back(machine, part, reference),
        Frame::Loop(part) => loop_referred(machine, part, &reference),
        frame => back(machine, frame, Value::Undefined),
    }
}

/// The part within has ended abruptly, and the one around takes it.
pub fn stopped<'p>(
    machine: &mut Machine<'p>,
    frame: Frame<'p>,
    stop: Abrupt<Thrown, Value, ()>,
) -> Step<'p>
    ensures { Leads (at machine.old resumed frame.entry (Err stop)) machine.old result machine.new }
{
    match frame {
        Frame::Statement(part) => statement_stopped(machine, part, stop),
        Frame::Loop(part) => loop_stopped(machine, part, stop),
        Frame::Entry(part) => entry_stopped(machine, part, stop),
        Frame::Hold => Ok(Now::Back(Err(stop))),
        Frame::Expression(_) => Ok(Now::Back(Err(stop))),
        Frame::Suffix(_) => Ok(Now::Back(Err(stop))),
        Frame::Target(_) => Ok(Now::Back(Err(stop))),
        Frame::Primitive { .. } => Ok(Now::Back(Err(stop))),
    }
}
