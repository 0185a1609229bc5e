// Bodies of functions (ECMA-262 5.1, sections 13.2.1 and 13.2.2).
ghost use Rattle.std.specs.Prelude.{◌≡◌, Err, None, Ok, Some};
ghost use Rattle.js_tree.specs.Tree.{statements_of};
ghost use Rattle.heap_values.specs.declared.value.Value.{Value};
ghost use Rattle.js_frames.specs.declared.frame.Frame.TheVariants as frame;
ghost use Rattle.js_machine.specs.Moves.{Leads, Moves, at, resumed};
ghost use Rattle.js_entries.specs.Entries as spec;

use heap_values::{ObjectId, Value};
use js_evaluation::Thrown;
use js_frames::{EntryFrame, Frame};
use js_machine::{End, Machine, Now, Step};
use js_tree::Statement;
use run_trees::Abrupt;

/// What a function gives that comes to the end of its body: undefined, or the object that it constructs.
pub fn nothing(made: Option<ObjectId>) -> Value
    ensures { result ≡ spec.nothing made }
{
    match made {
        None => Value::Undefined,
        Some(made) => Value::Object(made),
    }
}

/// The statements of a body. made: the object that it constructs.
pub fn enter_body<'p>(
    machine: &mut Machine<'p>,
    made: Option<ObjectId>,
    body: &'p [Statement],
) -> Step<'p>
    ensures { Moves (at machine.old spec.body made (statements_of body.entry.now)) machine.old result machine.new }
{
    match made {
        None => called_body(machine, body),
        Some(made) => constructing_body(machine, made, body),
    }
}

fn called_body<'p>(machine: &mut Machine<'p>, body: &'p [Statement]) -> Step<'p>
    ensures { Moves (at machine.old spec.body None (statements_of body.entry.now)) machine.old result machine.new }
{
    match body {
        [] => Ok(Now::Back(Ok(Value::Undefined))),
        [one, rest @ ..] => machine.execute(one, Frame::Entry(EntryFrame::Body { rest })),
    }
}

fn constructing_body<'p>(
    machine: &mut Machine<'p>,
    made: ObjectId,
    body: &'p [Statement],
) -> Step<'p>
    ensures { Moves (at machine.old spec.body (Some made) (statements_of body.entry.now)) machine.old result machine.new }
{
    match body {
        [] => Ok(Now::Back(Ok(Value::Object(made)))),
        [one, rest @ ..] => {
            machine.execute(one, Frame::Entry(EntryFrame::Construct { made, rest }))
        }
    }
}

/// A statement of a body is done: the next one is executed, or the call is at its end.
pub fn entry_back<'p>(machine: &mut Machine<'p>, part: EntryFrame<'p>) -> Step<'p>
    ensures { (v : Value) → Leads (at machine.old resumed (frame.Entry part.entry) (Ok v)) machine.old result machine.new }
{
    match part {
        EntryFrame::Body { rest } => called_body(machine, rest),
        EntryFrame::Construct { made, rest } => constructing_body(machine, made, rest),
    }
}

/// A statement of a body ends abruptly: what it returns is the value of the call. An object that a function returns
/// stands in the place of the one that it constructs.
pub fn entry_stopped<'p>(
    machine: &mut Machine<'p>,
    part: EntryFrame<'p>,
    stop: Abrupt<Thrown, Value, ()>,
) -> Step<'p>
    ensures { Leads (at machine.old resumed (frame.Entry part.entry) (Err stop)) machine.old result machine.new }
{
    match part {
        EntryFrame::Body { .. } => Ok(Now::Back(called(stop))),
        EntryFrame::Construct { made, .. } => Ok(Now::Back(constructing(made, stop))),
    }
}

/// The end of a call whose body ends abruptly.
fn called(stop: Abrupt<Thrown, Value, ()>) -> End
    ensures { result ≡ spec.called_end stop }
{
    match stop {
        Abrupt::Returned(value) => Ok(value),
        Abrupt::Thrown(thrown) => Err(Abrupt::Thrown(thrown)),
        Abrupt::Broken(()) => Err(Abrupt::Broken(())),
        Abrupt::Continued(()) => Err(Abrupt::Continued(())),
    }
}

/// The end of a construction whose body ends abruptly.
fn constructing(made: ObjectId, stop: Abrupt<Thrown, Value, ()>) -> End
    ensures { result ≡ spec.constructing_end made stop }
{
    match stop {
        Abrupt::Returned(value) => Ok(object_or(made, value)),
        Abrupt::Thrown(thrown) => Err(Abrupt::Thrown(thrown)),
        Abrupt::Broken(()) => Err(Abrupt::Broken(())),
        Abrupt::Continued(()) => Err(Abrupt::Continued(())),
    }
}

/// The value, where it is an object; the object that was made otherwise.
fn object_or(made: ObjectId, value: Value) -> Value
    ensures { result ≡ spec.object_or made value }
{
    match value {
        Value::Undefined => Value::Object(made),
        Value::Null => Value::Object(made),
        Value::Bool(_) => Value::Object(made),
        Value::Number(_) => Value::Object(made),
        Value::Text(_) => Value::Object(made),
        Value::Object(object) => Value::Object(object),
    }
}
