// The object of the arguments (ECMA-262 5.1, sections 10.5, steps 6 and 7, and 10.6).
ghost use Rattle.std.specs.Prelude.{◌≡◌, ◌+◌, IfOk, map, true};
ghost use Rattle.std.specs.Str.{bytes_eq};
ghost use Rattle.js_tree.specs.Tree.{statements_of};
ghost use Rattle.js_binding.specs.Names.{arguments_name, declared_function, functions_of};
ghost use Rattle.js_binding.specs.Scopes.{place_of};
ghost use Rattle.js_evaluation.specs.Entries as entry;
ghost use Rattle.heap_steps.specs.Works.{Works};
ghost use Rattle.js_entries.specs.Names as spec;

use heap_steps::{Halt, count_of, define_as, make_by};
use heap_values::{BuiltIn, Kind, ObjectId, ScopeId, Value};
use js_natives::define_elements;
use js_tree::{BoundName, Function, FunctionPart, Place, Statement, StatementNode};
use object_heap::{Heap, Marks};
use std::alloc::Global;
use utf16_text::{Memory, Text};

/// The marks of the length.
const LENGTH: Marks = Marks {
    listed: false,
    deletable: true,
};

/// `arguments`.
const ARGUMENTS: [u16; 9] = [97, 114, 103, 117, 109, 101, 110, 116, 115];

/// Gives the name `arguments` its object, where the scope of the function has that name and neither a parameter nor a
/// function has it.
pub fn bind_arguments(
    alloc: Global,
    heap: &mut Heap,
    function: &Function,
    scope: ScopeId,
    arguments: &[Value],
    place: Place,
) -> Result<(), Halt>
    ensures { Works (entry.arguments_if (entry.has_own_arguments function.now.parameters (statements_of function.now.body)) scope place function.now.names arguments.now) heap.old result heap.new }
{
    match arguments_slot(function.names.as_slice())? {
        None => Ok(()),
        Some(slot) => {
            if has_own_arguments(function) {
                Ok(())
            } else {
                write_arguments(alloc, heap, scope, slot, arguments, place)
            }
        }
    }
}

fn is_arguments(name: &Text) -> bool
    ensures { result ≡ bytes_eq arguments_name name.now }
{
    ARGUMENTS.as_slice() == name.units()
}

/// The slot of `arguments` among these names. Memory comes for more names than 32 bits can count.
fn arguments_slot(names: &[Text]) -> Result<Option<u32>, Memory>
    ensures { IfOk result (λ slot. slot ≡ place_of arguments_name names.now) }
{
    let mut passed: u32 = 0;
    let mut left = names;
    while let [name, rest @ ..] = left {
        if is_arguments(name) {
            return Ok(Some(passed));
        }
        passed = next(passed)?;
        left = rest;
    }
    Ok(None)
}

/// Whether a parameter or a function that the body declares has the name `arguments`.
fn has_own_arguments(function: &Function) -> bool
    ensures { result ≡ entry.has_own_arguments function.now.parameters (statements_of function.now.body) }
{
    is_parameter(function.parameters.as_slice()) || is_declared(function.body.as_slice())
}

fn is_parameter(parameters: &[BoundName]) -> bool
    ensures { result ≡ entry.has_name arguments_name (map (λ x. x.name) parameters.now) }
{
    let mut left = parameters;
    while let [parameter, rest @ ..] = left {
        if is_arguments(&parameter.name) {
            return true;
        }
        left = rest;
    }
    false
}

fn is_declared(body: &[Statement]) -> bool
    ensures { result ≡ entry.has_name arguments_name (functions_of (statements_of body.now)) }
{
    let mut left = body;
    while let [statement, rest @ ..] = left {
        if declares(statement) {
            return true;
        }
        left = rest;
    }
    false
}

fn declares(statement: &Statement) -> bool
    ensures { result ≡ entry.has_name arguments_name (declared_function statement.now) }
{
    match &statement.node {
        StatementNode::Function(name, FunctionPart::Whole(_)) => is_arguments(&name.name),
        StatementNode::Function(name, FunctionPart::Numbered(_)) => is_arguments(&name.name),
        StatementNode::Block(_) => false,
        StatementNode::Empty => false,
        StatementNode::Expression(_) => false,
        StatementNode::Debugger => false,
        StatementNode::Var(_) => false,
        StatementNode::If(_, _) => false,
        StatementNode::DoWhile(_, _) => false,
        StatementNode::While(_, _) => false,
        StatementNode::For(_, _, _, _) => false,
        StatementNode::ForIn(_, _, _) => false,
        StatementNode::Continue => false,
        StatementNode::Break => false,
        StatementNode::Return(_) => false,
        StatementNode::Throw(_) => false,
        StatementNode::Switch(_, _) => false,
        StatementNode::Try(_, _, _) => false,
    }
}

fn write_arguments(
    alloc: Global,
    heap: &mut Heap,
    scope: ScopeId,
    slot: u32,
    arguments: &[Value],
    place: Place,
) -> Result<(), Halt>
    ensures { Works (spec.arguments_in scope slot arguments.now place) heap.old result heap.new }
{
    let object = arguments_object(alloc, heap, arguments, place)?;
    heap.write_slot(alloc, scope, slot, object)?;
    Ok(())
}

/// Makes the object of the arguments.
fn arguments_object(
    alloc: Global,
    heap: &mut Heap,
    arguments: &[Value],
    place: Place,
) -> Result<Value, Halt>
    ensures { Works (entry.arguments_object place arguments.now) heap.old result heap.new }
{
    let object = make_by(alloc, heap, Kind::Plain, BuiltIn::ObjectPrototype, place)?;
    let length = Value::Number(count_of(arguments.len())?);
    define_as(alloc, heap, object, b"length", length, LENGTH, place)?;
    define_elements(alloc, heap, object, arguments, place)?;
    Ok(Value::Object(object))
}

/// The next number. Memory comes past 32 bits, which nothing in memory needs.
fn next(n: u32) -> Result<u32, Memory>
    ensures { IfOk result (λ m. m ≡ n + 1) }
{
    n.checked_add(1).ok_or(Memory)
}
