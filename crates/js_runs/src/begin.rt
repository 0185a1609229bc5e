// A part is begun.
ghost use Rattle.js_runs.specs.Closes.{Begins};

use js_entries::{call_node, construct_node, load_node};
use js_expressions::{expression_node, target_node};
use js_frames::OUTSIDE;
use js_machine::{Machine, Part, Step};
use js_statements::{statement_node, variables_from};

/// Begins a part: it is charged, there must be room for it, and its rule is done up to the first part within.
pub fn begin<'p>(machine: &mut Machine<'p>, part: Part<'p>) -> Step<'p>
    ensures { Begins part.entry machine.old result machine.new }
{
    match part {
        Part::Expression(e) => {
            machine.descend(e.place)?;
            expression_node(machine, e)
        }
        Part::Target(e) => {
            machine.descend(e.place)?;
            target_node(machine, e)
        }
        Part::Statement(s) => {
            machine.descend(s.place)?;
            statement_node(machine, s)
        }
        Part::Declare(place, all) => {
            machine.descend(place)?;
            variables_from(machine, place, all)
        }
        Part::Call(function, this, arguments, place) => {
            machine.descend(place)?;
            call_node(machine, function, this, arguments, place)
        }
        Part::Construct(function, arguments, place) => {
            machine.descend(place)?;
            construct_node(machine, function, arguments, place)
        }
        Part::Load(body) => {
            machine.descend(OUTSIDE)?;
            load_node(machine, body)
        }
    }
}
