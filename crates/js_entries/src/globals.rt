// The load of a script (ECMA-262 5.1, sections 10.5 and 14).
ghost use Rattle.std.specs.Prelude.{◌≡◌, IfOk, map};
ghost use Rattle.js_binding.specs.Names.{variables_of_all};
ghost use Rattle.js_tree.specs.Tree.{statements_of};
ghost use Rattle.js_tree.specs.View.{function_of};
ghost use Rattle.object_heap.specs.Heap.{object_at};
ghost use Rattle.js_evaluation.specs.Parts.{outside};
ghost use Rattle.js_evaluation.specs.Evaluation.{outer_scope};
ghost use Rattle.js_evaluation.specs.Entries as rule;
ghost use Rattle.js_evaluation.specs.Scoping.{by_slots};
ghost use Rattle.heap_steps.specs.Works.{Works};
ghost use Rattle.js_machine.specs.Moves.{Moves, anywhere};
ghost use Rattle.js_entries.specs.Globals as spec;
ghost use Rattle.js_entries.specs.Names.{declared_in};

use crate::names::{declared, function_object};
use heap_steps::{Halt, define, throw_type_error};
use heap_values::{BuiltIn, Found, Kind, ObjectId, Value};
use js_frames::{Context, OUTSIDE};
use js_machine::{Machine, Step};
use js_statements::statements_from;
use js_tree::{Function, NameList, Statement};
use object_heap::{Heap, Marks};
use scope_names::add_variables;
use std::alloc::Global;
use utf16_text::{Memory, Text};

/// The marks of what a script declares.
const DECLARED: Marks = Marks {
    listed: true,
    deletable: false,
};

/// What the load of a script does, behind its charge: its functions and its variables become properties of the global
/// object, and then its statements are executed in the outermost scope.
#[tactic(auto, unfolding(js_evaluation::specs::Entries::load_node))]
pub fn load_node<'p>(machine: &mut Machine<'p>, body: &'p [Statement]) -> Step<'p>
    ensures { Moves (anywhere machine.old (rule.load_node by_slots) outer_scope (statements_of body.entry.now) outside) machine.old result machine.new }
{
    let heap = &mut machine.state.heap;
    declare_functions(machine.alloc, heap, machine.functions, body)?;
    declare_variables(machine.alloc, heap, body)?;
    let scope = heap.outer();
    let this = Value::Object(heap.built_in(BuiltIn::Global));
    machine.context = Context { scope, this };
    statements_from(machine, body)
}

/// Makes the functions that a script declares, in their order, as properties of the global object.
fn declare_functions(
    alloc: Global,
    heap: &mut Heap,
    functions: &[Function],
    body: &[Statement],
) -> Result<(), Halt>
    ensures { Works (spec.functions_declared (map function_of functions.now) (statements_of body.now)) heap.old result heap.new }
{
    let mut left = body;
    while let [statement, rest @ ..] = left {
        declare_in(alloc, heap, functions, statement)?;
        left = rest;
    }
    Ok(())
}

/// Makes the function that a statement declares, where it declares one.
fn declare_in(
    alloc: Global,
    heap: &mut Heap,
    functions: &[Function],
    statement: &Statement,
) -> Result<(), Halt>
    ensures { Works (spec.function_declared (map function_of functions.now) (declared_in statement.now)) heap.old result heap.new }
{
    match declared(statement) {
        None => Ok(()),
        Some((name, number)) => {
            let scope = heap.outer();
            let function = function_object(alloc, heap, functions, number, scope, OUTSIDE)?;
            declare_function(alloc, heap, &name.name, function)
        }
    }
}

/// A function becomes a property of the global object; a property that doesn't give way refuses it.
fn declare_function(
    alloc: Global,
    heap: &mut Heap,
    name: &Text,
    function: Value,
) -> Result<(), Halt>
    ensures { Works (spec.declare_function name.now function) heap.old result heap.new }
{
    let global = heap.built_in(BuiltIn::Global);
    if gives_way(alloc, heap, global, name)? {
        define(alloc, heap, global, name, function, DECLARED, OUTSIDE)
    } else {
        throw_type_error(alloc, heap, b"not an object", OUTSIDE)
    }
}

/// Whether what an object has under a name gives way to a function: one that can be deleted, a listed one, which can be
/// written, and one that is left out. Memory comes for an array, which the global object is not.
fn gives_way(alloc: Global, heap: &Heap, object: ObjectId, name: &Text) -> Result<bool, Memory>
    ensures { IfOk result (λ gives. gives ≡ spec.gives_way_in (rule.own_property (object_at heap.now object) name.now)) }
{
    match heap.own_marks(object, name) {
        None => Ok(true),
        Some(marks) => {
            if marks.deletable {
                return Ok(true);
            }
            if marks.listed {
                return Ok(true);
            }
            is_left_out(alloc, heap, object, name)
        }
    }
}

/// Whether the property of an object is left out, where it has one of this name.
fn is_left_out(alloc: Global, heap: &Heap, object: ObjectId, name: &Text) -> Result<bool, Memory>
    ensures { IfOk result (λ is. is ≡ spec.is_left_out_in (rule.own_property (object_at heap.now object) name.now)) }
{
    match heap.kind(object) {
        Kind::Array => Err(Memory),
        _ => match heap.get_own(alloc, object, name)? {
            Found::LeftOut(_) => Ok(true),
            Found::Value(_) => Ok(false),
            Found::Absent => Ok(false),
        },
    }
}

/// The variables of a script become properties of the global object, each unless it has one of that name, by itself or
/// by its prototype.
fn declare_variables(alloc: Global, heap: &mut Heap, body: &[Statement]) -> Result<(), Halt>
    ensures { Works (spec.variables_declared (variables_of_all (statements_of body.now))) heap.old result heap.new }
{
    let mut names = NameList::new(alloc);
    add_variables(alloc, body, &mut names)?;
    declare_names(alloc, heap, names.as_slice())
}

fn declare_names(alloc: Global, heap: &mut Heap, names: &[Text]) -> Result<(), Halt>
    ensures { Works (spec.variables_declared names.now) heap.old result heap.new }
{
    let mut left = names;
    while let [name, rest @ ..] = left {
        declare_variable(alloc, heap, name)?;
        left = rest;
    }
    Ok(())
}

fn declare_variable(alloc: Global, heap: &mut Heap, name: &Text) -> Result<(), Halt>
    ensures { Works (spec.declare_variable name.now) heap.old result heap.new }
{
    let global = heap.built_in(BuiltIn::Global);
    match heap.get(alloc, global, name)? {
        Found::Absent => define(
            alloc,
            heap,
            global,
            name,
            Value::Undefined,
            DECLARED,
            OUTSIDE,
        ),
        Found::Value(_) => Ok(()),
        Found::LeftOut(_) => Ok(()),
    }
}
