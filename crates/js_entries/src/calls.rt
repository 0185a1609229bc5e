// Calls and constructions (ECMA-262 5.1, sections 10.4.3, 11.2.3, 13.2.1 and 13.2.2).
ghost use Rattle.std.specs.Prelude.{◌≡◌, IfOk, Some, length};
ghost use Rattle.js_tree.specs.View.{function_of};
ghost use Rattle.js_evaluation.specs.Entries as rule;
ghost use Rattle.js_evaluation.specs.Scoping.{by_slots};
ghost use Rattle.js_machine.specs.Moves.{Moves, at, anywhere};
ghost use Rattle.js_entries.specs.Entries as spec;

use crate::bodies::{enter_body, nothing};
use crate::names::{bind_names, function_at};
use heap_steps::{get, make, make_scope};
use heap_values::{BuiltIn, Kind, ObjectId, ScopeId, Value};
use js_frames::Context;
use js_machine::{Machine, Now, Step};
use js_native_calls::native_call;
use js_tree::{Function, Place};
use object_heap::Heap;
use utf16_text::{List, Memory, Text};

/// What the call of a function does, behind its charge: a function of the script is entered, a native is run. Anything
/// else gives undefined; no rule calls it.
#[tactic(auto, unfolding(js_evaluation::specs::Entries::call_node))]
pub fn call_node<'p>(
    machine: &mut Machine<'p>,
    function: ObjectId,
    this: Value,
    arguments: List<Value>,
    place: Place,
) -> Step<'p>
    ensures { Moves (anywhere machine.old (rule.call_node by_slots) function this arguments place) machine.old result machine.new }
{
    let kind = machine.state.heap.kind(function);
    called_by(machine, kind, this, arguments, place)
}

fn called_by<'p>(
    machine: &mut Machine<'p>,
    kind: Kind,
    this: Value,
    arguments: List<Value>,
    place: Place,
) -> Step<'p>
    ensures { Moves (at machine.old spec.called_by kind this arguments place) machine.old result machine.new }
{
    match kind {
        Kind::Function(number, around) => {
            entered(machine, None, number, around, this, arguments, place)
        }
        Kind::Native(number) => native_call(machine, number, this, arguments, place),
        Kind::Plain => Ok(Now::Back(Ok(Value::Undefined))),
        Kind::Array => Ok(Now::Back(Ok(Value::Undefined))),
        Kind::Error => Ok(Now::Back(Ok(Value::Undefined))),
        Kind::Pattern(_) => Ok(Now::Back(Ok(Value::Undefined))),
    }
}

/// What a construction by a function does, behind its charge: a function of the script is entered with a new object as
/// its `this`, a native is run. Anything else gives undefined; no rule constructs by it.
#[tactic(auto, unfolding(js_evaluation::specs::Entries::construct_node))]
pub fn construct_node<'p>(
    machine: &mut Machine<'p>,
    function: ObjectId,
    arguments: List<Value>,
    place: Place,
) -> Step<'p>
    ensures { Moves (anywhere machine.old (rule.construct_node by_slots) function arguments place) machine.old result machine.new }
{
    let kind = machine.state.heap.kind(function);
    constructed_by(machine, kind, function, arguments, place)
}

fn constructed_by<'p>(
    machine: &mut Machine<'p>,
    kind: Kind,
    function: ObjectId,
    arguments: List<Value>,
    place: Place,
) -> Step<'p>
    ensures { Moves (at machine.old spec.constructed_by kind function arguments place) machine.old result machine.new }
{
    match kind {
        Kind::Function(number, around) => {
            constructed(machine, function, number, around, arguments, place)
        }
        Kind::Native(number) => native_call(machine, number, Value::Undefined, arguments, place),
        Kind::Plain => Ok(Now::Back(Ok(Value::Undefined))),
        Kind::Array => Ok(Now::Back(Ok(Value::Undefined))),
        Kind::Error => Ok(Now::Back(Ok(Value::Undefined))),
        Kind::Pattern(_) => Ok(Now::Back(Ok(Value::Undefined))),
    }
}

/// Makes an object with the prototype that the function has for it, and enters the function.
fn constructed<'p>(
    machine: &mut Machine<'p>,
    function: ObjectId,
    number: u32,
    around: ScopeId,
    arguments: List<Value>,
    place: Place,
) -> Step<'p>
    ensures { Moves (at machine.old spec.constructed function number around arguments place) machine.old result machine.new }
{
    let name = Text::from_latin_1(machine.alloc, b"prototype")?;
    let heap = &mut machine.state.heap;
    let prototype = get(machine.alloc, heap, &Value::Object(function), &name, place)?;
    let prototype = made_from(heap, &prototype);
    let made = make(machine.alloc, heap, Kind::Plain, prototype, place)?;
    let this = Value::Object(made);
    entered(machine, Some(made), number, around, this, arguments, place)
}

/// The prototype of what is constructed by a function that has this value as its `prototype`.
fn made_from(heap: &Heap, prototype: &Value) -> ObjectId
    ensures { result ≡ spec.made_from prototype.now }
{
    match prototype {
        Value::Object(object) => *object,
        _ => heap.built_in(BuiltIn::ObjectPrototype),
    }
}

/// Enters the function of a number. made: the object that it constructs.
fn entered<'p>(
    machine: &mut Machine<'p>,
    made: Option<ObjectId>,
    number: u32,
    around: ScopeId,
    this: Value,
    arguments: List<Value>,
    place: Place,
) -> Step<'p>
    ensures { Moves (at machine.old spec.entered_by made number around this arguments place) machine.old result machine.new }
{
    match function_at(machine.functions, number) {
        None => Ok(Now::Back(Ok(nothing(made)))),
        Some(function) => enter(machine, made, function, around, this, arguments, place),
    }
}

/// A function with its scope, its parameters, its functions and the object of its arguments, and then its body.
fn enter<'p>(
    machine: &mut Machine<'p>,
    made: Option<ObjectId>,
    function: &'p Function,
    around: ScopeId,
    this: Value,
    arguments: List<Value>,
    place: Place,
) -> Step<'p>
    ensures { Moves (at machine.old spec.entered made (Some (function_of function.entry.now)) around this arguments place) machine.old result machine.new }
{
    let size = size_of(function)?;
    let heap = &mut machine.state.heap;
    let scope = make_scope(machine.alloc, heap, size, around, place)?;
    let values = arguments.as_slice();
    bind_names(
        machine.alloc,
        heap,
        machine.functions,
        function,
        scope,
        values,
        place,
    )?;
    machine.context = Context { scope, this };
    enter_body(machine, made, function.body.as_slice())
}

/// How many names the scope of a function has. Memory comes for a count that nothing in memory can have.
fn size_of(function: &Function) -> Result<u32, Memory>
    ensures { IfOk result (λ size. size ≡ length function.now.names) }
{
    match u32::try_from(function.names.len()) {
        Ok(size) => Ok(size),
        Err(_) => Err(Memory),
    }
}
