// Variables (ECMA-262 5.1, section 12.2).
ghost use Rattle.js_tree.specs.View.{declarations_of};
ghost use Rattle.js_evaluation.specs.Statements as rule;
ghost use Rattle.js_evaluation.specs.Scoping.{by_slots};
ghost use Rattle.js_frames.specs.declared.frame.Frame.TheVariants as frame;
ghost use Rattle.js_frames.specs.declared.statement_frame.StatementFrame.TheVariants as of_statement;
ghost use Rattle.std.specs.Prelude.{Ok};
ghost use Rattle.js_machine.specs.Moves.{Leads, Moves, at, resumed};

use heap_steps::write_name;
use heap_values::Value;
use js_frames::{Frame, StatementFrame};
use js_machine::{Machine, Now, Step};
use js_tree::{BoundName, Declared, Place};

/// Variables with their first values, one after the other. Without one nothing is done.
pub fn variables_from<'p>(machine: &mut Machine<'p>, place: Place, all: &'p [Declared]) -> Step<'p>
    ensures { Moves (at machine.old (rule.variables_from by_slots) place (declarations_of all.entry.now)) machine.old result machine.new }
{
    let mut left = all;
    while let [declared, rest @ ..] = left {
        if let Some(value) = &declared.value {
            let name = &declared.name;
            let frame = StatementFrame::Var { name, place, rest };
            return machine.evaluate(value, Frame::Statement(frame));
        }
        left = rest;
    }
    Ok(Now::Back(Ok(Value::Undefined)))
}

/// The first value of a variable is there.
pub fn initialized<'p>(
    machine: &mut Machine<'p>,
    name: &'p BoundName,
    value: Value,
    place: Place,
    rest: &'p [Declared],
) -> Step<'p>
    ensures { Leads (at machine.old resumed (frame.Statement (of_statement.Var name.entry place rest.entry)) (Ok value)) machine.old result machine.new }
{
    let scope = machine.context.scope;
    write_name(
        machine.alloc,
        &mut machine.state.heap,
        scope,
        name,
        value,
        place,
    )?;
    variables_from(machine, place, rest)
}
