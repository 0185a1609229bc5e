// Rules that end: a text is given, or an error thrown.
ghost use Rattle.js_evaluation.specs.Handed as handed;
ghost use Rattle.js_evaluation.specs.State as state;
ghost use Rattle.js_machine.specs.Moves.{Moves};

use heap_steps::{spend, throw_type_error};
use heap_values::Value;
use js_machine::{Machine, Now, Step};
use js_tree::Place;
use utf16_text::Text;

/// Throws a TypeError with this message, one byte a unit.
pub fn type_error<'p>(machine: &mut Machine<'p>, message: &[u8], place: Place) -> Step<'p>
    ensures { Moves (state.throw_type_error message.now place) machine.old result machine.new }
{
    let heap = &mut machine.state.heap;
    let value = throw_type_error(machine.alloc, heap, message, place)?;
    Ok(Now::Back(Ok(value)))
}

/// Gives a text, which is counted.
pub fn give_text<'p>(machine: &mut Machine<'p>, text: Text, place: Place) -> Step<'p>
    ensures { Moves (handed.gives_text text place) machine.old result machine.new }
{
    spend(&mut machine.state.heap, &text, place)?;
    Ok(Now::Back(Ok(Value::Text(text))))
}
