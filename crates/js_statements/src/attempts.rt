// `try` (ECMA-262 5.1, section 12.14).
ghost use Rattle.std.specs.Prelude.{Err};
ghost use Rattle.js_tree.specs.View.{optional_catch, optional_statement};
ghost use Rattle.js_evaluation.specs.Statements as rule;
ghost use Rattle.js_evaluation.specs.Scoping.{by_slots};
ghost use Rattle.js_frames.specs.declared.frame.Frame.TheVariants as frame;
ghost use Rattle.js_frames.specs.declared.statement_frame.StatementFrame.TheVariants as of_statement;
ghost use Rattle.js_machine.specs.Moves.{Leads, Moves, at, resumed};
ghost use Rattle.js_statements.specs.Attempts as spec;

use heap_steps::make_scope;
use heap_values::Value;
use js_evaluation::Thrown;
use js_frames::{Frame, StatementFrame};
use js_machine::{End, Machine, Now, Step};
use js_tree::{Catch, Place, Statement};
use run_trees::Abrupt;

/// A block with its handler and its last block.
pub fn tried<'p>(
    machine: &mut Machine<'p>,
    place: Place,
    block: &'p Statement,
    handler: &'p Option<Box<Catch>>,
    last: &'p Option<Box<Statement>>,
) -> Step<'p>
    ensures { Moves (at machine.old (rule.tried by_slots) place block.entry.now (optional_catch handler.entry.now) (optional_statement last.entry.now)) machine.old result machine.new }
{
    let frame = StatementFrame::TryBlock {
        place,
        handler,
        last,
    };
    machine.execute(block, Frame::Statement(frame))
}

/// The last block, which stands behind this end; the end is given where there is none.
pub fn ended<'p>(machine: &mut Machine<'p>, last: &'p Option<Box<Statement>>, end: End) -> Step<'p>
    ensures { Moves (at machine.old spec.ended (optional_statement last.entry.now) end) machine.old result machine.new }
{
    match last {
        None => Ok(Now::Back(end)),
        Some(s) => machine.execute(s, Frame::Statement(StatementFrame::Last { end })),
    }
}

/// The block ends abruptly: what is thrown goes to its handler.
pub fn block_stopped<'p>(
    machine: &mut Machine<'p>,
    place: Place,
    handler: &'p Option<Box<Catch>>,
    last: &'p Option<Box<Statement>>,
    stop: Abrupt<Thrown, Value, ()>,
) -> Step<'p>
    ensures { Leads (at machine.old resumed (frame.Statement (of_statement.TryBlock place handler.entry last.entry)) (Err stop)) machine.old result machine.new }
{
    match handler {
        None => ended(machine, last, Err(stop)),
        Some(handler) => match stop {
            Abrupt::Thrown(thrown) => handled(machine, place, handler, thrown, last),
            Abrupt::Returned(value) => ended(machine, last, Err(Abrupt::Returned(value))),
            Abrupt::Broken(()) => ended(machine, last, Err(Abrupt::Broken(()))),
            Abrupt::Continued(()) => ended(machine, last, Err(Abrupt::Continued(()))),
        },
    }
}

/// A handler has a scope of one name, with what was thrown.
fn handled<'p>(
    machine: &mut Machine<'p>,
    place: Place,
    handler: &'p Catch,
    thrown: Thrown,
    last: &'p Option<Box<Statement>>,
) -> Step<'p>
    ensures { Moves (at machine.old spec.handled place handler.entry.now.name handler.entry.now.body thrown (optional_statement last.entry.now)) machine.old result machine.new }
{
    let around = machine.context.scope;
    let heap = &mut machine.state.heap;
    let scope = make_scope(machine.alloc, heap, 1, around, place)?;
    heap.write_slot(machine.alloc, scope, 0, thrown.value)?;
    let frame = StatementFrame::Handler { last };
    machine.execute_in(scope, &handler.body, Frame::Statement(frame))
}
