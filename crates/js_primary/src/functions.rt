// Function expressions (ECMA-262 5.1, section 13).
ghost use Rattle.std.specs.Prelude.{◌≡◌, IfOk};
ghost use Rattle.js_evaluation.specs.Expressions as rule;
ghost use Rattle.js_evaluation.specs.Scoping.{by_slots};
ghost use Rattle.js_machine.specs.Moves.{Moves, at};
ghost use Rattle.js_primary.specs.Functions as spec;

use heap_steps::{closure, make_scope};
use js_machine::{Machine, Now, Step};
use js_tree::{Function, Place};
use utf16_text::Memory;

/// How many parameters a function has. Memory comes for more than can stand in memory.
fn arity(function: Option<&Function>) -> Result<u32, Memory>
    ensures { IfOk result (λ count. count ≡ spec.arity_in function.entry) }
{
    match function {
        None => Ok(0),
        Some(function) => match u32::try_from(function.parameters.len()) {
            Ok(count) => Ok(count),
            Err(_) => Err(Memory),
        },
    }
}

/// Whether a function has a name of its own.
fn has_name(function: Option<&Function>) -> bool
    ensures { result ≡ spec.has_name function.entry }
{
    match function {
        None => false,
        Some(function) => function.name.is_some(),
    }
}

/// The function of this number; one with a name of its own has a scope for it.
pub fn function_value<'p>(machine: &mut Machine<'p>, number: u32, place: Place) -> Step<'p>
    ensures { Moves (at machine.old (rule.function_value by_slots) place number) machine.old result machine.new }
{
    let function = machine.functions.get(number as usize);
    let arity = arity(function)?;
    if has_name(function) {
        return named_function(machine, number, arity, place);
    }
    let scope = machine.context.scope;
    let heap = &mut machine.state.heap;
    let value = closure(machine.alloc, heap, number, arity, scope, place)?;
    Ok(Now::Back(Ok(value)))
}

fn named_function<'p>(machine: &mut Machine<'p>, number: u32, arity: u32, place: Place) -> Step<'p>
    ensures { Moves (at machine.old spec.named_function number arity place) machine.old result machine.new }
{
    let around = machine.context.scope;
    let heap = &mut machine.state.heap;
    let scope = make_scope(machine.alloc, heap, 1, around, place)?;
    let value = closure(machine.alloc, heap, number, arity, scope, place)?;
    let named = value.copy(machine.alloc)?;
    heap.write_slot(machine.alloc, scope, 0, named)?;
    Ok(Now::Back(Ok(value)))
}
