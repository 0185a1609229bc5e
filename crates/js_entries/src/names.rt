// The names of a function's scope (ECMA-262 5.1, section 10.5).
ghost use Rattle.std.specs.Prelude.{◌≡◌, IfOk, drop, length, map, slice_get};
ghost use Rattle.heap_values.specs.declared.value.Value.{Value};
ghost use Rattle.js_tree.specs.Tree.{statements_of};
ghost use Rattle.js_tree.specs.View.{function_of};
ghost use Rattle.js_evaluation.specs.Entries as entry;
ghost use Rattle.js_evaluation.specs.Scoping.{by_slots};
ghost use Rattle.heap_steps.specs.Works.{Works};
ghost use Rattle.js_entries.specs.Names as spec;

use crate::arguments::bind_arguments;
use heap_steps::{Halt, closure, write_name};
use heap_values::{ScopeId, Value};
use js_natives::argument;
use js_tree::{BoundName, Function, FunctionPart, Place, Statement, StatementNode};
use object_heap::Heap;
use std::alloc::Global;
use utf16_text::Memory;

/// Gives the names of a function's scope their first values: its parameters, the functions that it declares, and the
/// object of its arguments.
pub fn bind_names(
    alloc: Global,
    heap: &mut Heap,
    functions: &[Function],
    function: &Function,
    scope: ScopeId,
    arguments: &[Value],
    place: Place,
) -> Result<(), Halt>
    ensures { (this : Value) → Works (spec.bound (map function_of functions.now) function.now scope this arguments.now place) heap.old result heap.new }
{
    let parameters = function.parameters.as_slice();
    let body = function.body.as_slice();
    bind_parameters(alloc, heap, scope, parameters, arguments, place)?;
    bind_functions(alloc, heap, functions, scope, body, place)?;
    bind_arguments(alloc, heap, function, scope, arguments, place)
}

/// Gives each parameter its argument, or undefined; of two of one name the later one counts.
fn bind_parameters(
    alloc: Global,
    heap: &mut Heap,
    scope: ScopeId,
    parameters: &[BoundName],
    arguments: &[Value],
    place: Place,
) -> Result<(), Halt>
    ensures { (this : Value) → Works (entry.parameters_from by_slots (record { scope = scope; this = this }) place parameters.now arguments.now) heap.old result heap.new }
{
    let mut left = parameters;
    let mut values = arguments;
    while let [name, rest @ ..] = left {
        let value = argument(alloc, values, 0)?;
        write_name(alloc, heap, scope, name, value, place)?;
        left = rest;
        values = behind_first(values);
    }
    Ok(())
}

/// The values behind the first.
fn behind_first(values: &[Value]) -> &[Value]
    ensures { result.now ≡ drop 1 values.now }
{
    match values {
        [] => values,
        [_, rest @ ..] => rest,
    }
}

/// Makes the functions that a body declares, in their order.
fn bind_functions(
    alloc: Global,
    heap: &mut Heap,
    functions: &[Function],
    scope: ScopeId,
    body: &[Statement],
    place: Place,
) -> Result<(), Halt>
    ensures { (this : Value) → Works (entry.functions_from by_slots (map function_of functions.now) (record { scope = scope; this = this }) place (statements_of body.now)) heap.old result heap.new }
{
    let mut left = body;
    while let [statement, rest @ ..] = left {
        bind_function(alloc, heap, functions, scope, statement, place)?;
        left = rest;
    }
    Ok(())
}

/// Makes the function that a statement declares, where it declares one.
fn bind_function(
    alloc: Global,
    heap: &mut Heap,
    functions: &[Function],
    scope: ScopeId,
    statement: &Statement,
    place: Place,
) -> Result<(), Halt>
    ensures { (this : Value) → Works (spec.function_bound (map function_of functions.now) (record { scope = scope; this = this }) place (spec.declared_in statement.now)) heap.old result heap.new }
{
    match declared(statement) {
        None => Ok(()),
        Some((name, number)) => {
            let function = function_object(alloc, heap, functions, number, scope, place)?;
            write_name(alloc, heap, scope, name, function, place)
        }
    }
}

/// The name and the number of the function that a statement declares. None where it declares none.
pub fn declared(statement: &Statement) -> Option<(&BoundName, u32)>
    ensures { spec.named result ≡ spec.declared_in statement.now }
{
    match &statement.node {
        StatementNode::Function(name, FunctionPart::Numbered(number)) => Some((name, *number)),
        StatementNode::Function(_, FunctionPart::Whole(_)) => None,
        StatementNode::Block(_) => None,
        StatementNode::Empty => None,
        StatementNode::Expression(_) => None,
        StatementNode::Debugger => None,
        StatementNode::Var(_) => None,
        StatementNode::If(_, _) => None,
        StatementNode::DoWhile(_, _) => None,
        StatementNode::While(_, _) => None,
        StatementNode::For(_, _, _, _) => None,
        StatementNode::ForIn(_, _, _) => None,
        StatementNode::Continue => None,
        StatementNode::Break => None,
        StatementNode::Return(_) => None,
        StatementNode::Throw(_) => None,
        StatementNode::Switch(_, _) => None,
        StatementNode::Try(_, _, _) => None,
    }
}

/// Makes the object of a function in a scope.
pub fn function_object(
    alloc: Global,
    heap: &mut Heap,
    functions: &[Function],
    number: u32,
    scope: ScopeId,
    place: Place,
) -> Result<Value, Halt>
    ensures { Works (entry.function_object (map function_of functions.now) number scope place) heap.old result heap.new }
{
    let arity = arity(functions, number)?;
    closure(alloc, heap, number, arity, scope, place)
}

/// How many parameters the function of a number has. Memory comes for a count that nothing in memory can have.
fn arity(functions: &[Function], number: u32) -> Result<u32, Memory>
    ensures { IfOk result (λ arity. arity ≡ spec.arity_in (map function_of functions.now) number) }
{
    match function_at(functions, number) {
        None => Ok(0),
        Some(function) => arity_of(function),
    }
}

fn arity_of(function: &Function) -> Result<u32, Memory>
    ensures { IfOk result (λ arity. arity ≡ length function.now.parameters) }
{
    match u32::try_from(function.parameters.len()) {
        Ok(arity) => Ok(arity),
        Err(_) => Err(Memory),
    }
}

/// The function of a number. None where there is none.
pub fn function_at<'p>(functions: &'p [Function], number: u32) -> Option<&'p Function>
    ensures { spec.function_in result ≡ slice_get (map function_of functions.entry.now) number }
{
    functions.get(number as usize)
}
