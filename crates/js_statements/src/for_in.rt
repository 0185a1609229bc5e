// `for`-`in` loops (ECMA-262 5.1, section 12.6.4).
ghost use Rattle.std.specs.Prelude.{Err, Ok};
ghost use Rattle.js_tree.specs.Tree.{optional_of};
ghost use Rattle.js_tree.specs.View.{target_of};
ghost use Rattle.js_evaluation.specs.Statements as rule;
ghost use Rattle.js_evaluation.specs.Scoping.{by_slots};
ghost use Rattle.js_frames.specs.Parts.{reference_of};
ghost use Rattle.js_frames.specs.RestOf.{names_from, rest_of_target};
ghost use Rattle.js_frames.specs.declared.frame.Frame.TheVariants as frame;
ghost use Rattle.js_frames.specs.declared.statement_frame.LoopFrame.TheVariants as of_loop;
ghost use Rattle.js_machine.specs.Moves.{Leads, Moves, at, evaluated, executed, resumed};
ghost use Rattle.js_statements.specs.Loops as spec;

use crate::listed::{charge_names, is_listed, listed_names};
use heap_steps::write_name;
use heap_values::Value;
use js_evaluation::Thrown;
use js_frames::{ForInLoop, Frame, LoopFrame, NamesLeft, Reference};
use js_machine::{Machine, Now, Step, write_reference};
use js_tree::{BoundName, Declared, Expression, ForTarget};
use run_trees::Abrupt;
use utf16_text::Text;

/// A `for`-`in` loop: the first value of a declared name comes before the object.
pub fn for_in_loop<'p>(
    machine: &mut Machine<'p>,
    object: &'p Expression,
    looped: ForInLoop<'p>,
) -> Step<'p>
    ensures { Moves (at machine.old (rule.for_in_loop by_slots) looped.entry.place (target_of looped.entry.target.now) object.entry.now looped.entry.body.now) machine.old result machine.new }
{
    match looped.target {
        ForTarget::Expression(_) => object_of(machine, object, looped),
        ForTarget::Declared(declared) => declared_in(machine, declared, object, looped),
    }
}

/// The object whose names are listed.
fn object_of<'p>(
    machine: &mut Machine<'p>,
    object: &'p Expression,
    looped: ForInLoop<'p>,
) -> Step<'p>
    ensures { Leads (at machine.old evaluated object.entry.now (frame.Loop (of_loop.ForInObject looped.entry))) machine.old result machine.new }
{
    machine.evaluate(object, Frame::Loop(LoopFrame::ForInObject { looped }))
}

/// A declared name has its first value before the object is evaluated.
fn declared_in<'p>(
    machine: &mut Machine<'p>,
    declared: &'p Declared,
    object: &'p Expression,
    looped: ForInLoop<'p>,
) -> Step<'p>
    ensures { Leads (at machine.old spec.declared_in declared.entry.now.name (optional_of declared.entry.now.value) object.entry.now looped.entry) machine.old result machine.new }
{
    match &declared.value {
        None => object_of(machine, object, looped),
        Some(first) => {
            let name = &declared.name;
            let frame = LoopFrame::ForInFirst {
                name,
                object,
                looped,
            };
            machine.evaluate(first, Frame::Loop(frame))
        }
    }
}

/// The first value of the declared name is there.
pub fn first_named<'p>(
    machine: &mut Machine<'p>,
    name: &'p BoundName,
    value: Value,
    object: &'p Expression,
    looped: ForInLoop<'p>,
) -> Step<'p>
    ensures { Leads (at machine.old resumed (frame.Loop (of_loop.ForInFirst name.entry object.entry looped.entry)) (Ok value)) machine.old result machine.new }
{
    let scope = machine.context.scope;
    let heap = &mut machine.state.heap;
    write_name(machine.alloc, heap, scope, name, value, looped.place)?;
    object_of(machine, object, looped)
}

/// The object is there: its names are listed, and each is charged.
pub fn listed<'p>(machine: &mut Machine<'p>, object: Value, looped: ForInLoop<'p>) -> Step<'p>
    ensures { Leads (at machine.old resumed (frame.Loop (of_loop.ForInObject looped.entry)) (Ok object)) machine.old result machine.new }
{
    let names = listed_names(machine.alloc, &machine.state.heap, &object)?;
    charge_names(&mut machine.state, names.as_slice(), looped.place)?;
    next_name(machine, object, NamesLeft::new(names), looped)
}

/// The next of the names that is still there.
pub fn next_name<'p>(
    machine: &mut Machine<'p>,
    object: Value,
    names: NamesLeft,
    looped: ForInLoop<'p>,
) -> Step<'p>
    ensures { Moves (at machine.old names_from looped.entry object names) machine.old result machine.new }
{
    let mut names = names;
    while let Some(name) = names.next() {
        if is_listed(machine.alloc, &machine.state.heap, &object, &name)? {
            return with_name(machine, name, object, names, looped);
        }
    }
    Ok(Now::Back(Ok(Value::Undefined)))
}

/// A name is written to the target, and then the body is executed.
fn with_name<'p>(
    machine: &mut Machine<'p>,
    name: Text,
    object: Value,
    names: NamesLeft,
    looped: ForInLoop<'p>,
) -> Step<'p>
    ensures { Moves (at machine.old spec.with_name name object names looped.entry) machine.old result machine.new }
{
    match looped.target {
        ForTarget::Expression(target) => {
            let frame = LoopFrame::ForInTarget {
                name,
                object,
                names,
                looped,
            };
            machine.refer(target, Frame::Loop(frame))
        }
        ForTarget::Declared(declared) => {
            let scope = machine.context.scope;
            let heap = &mut machine.state.heap;
            let name = Value::Text(name);
            write_name(
                machine.alloc,
                heap,
                scope,
                &declared.name,
                name,
                looped.place,
            )?;
            names_body(machine, object, names, looped)
        }
    }
}

/// The body, with the names that are left.
fn names_body<'p>(
    machine: &mut Machine<'p>,
    object: Value,
    names: NamesLeft,
    looped: ForInLoop<'p>,
) -> Step<'p>
    ensures { Leads (at machine.old executed looped.entry.body.now (frame.Loop (of_loop.ForInBody object names looped.entry))) machine.old result machine.new }
{
    let frame = LoopFrame::ForInBody {
        object,
        names,
        looped,
    };
    machine.execute(looped.body, Frame::Loop(frame))
}

/// The target refers to this, to which a name is written.
pub fn targeted<'p>(
    machine: &mut Machine<'p>,
    reference: &Reference<'p>,
    name: Text,
    object: Value,
    names: NamesLeft,
    looped: ForInLoop<'p>,
) -> Step<'p>
    ensures { Moves (at machine.old rest_of_target (of_loop.ForInTarget name object names looped.entry) (reference_of reference.entry.now)) machine.old result machine.new }
{
    let scope = machine.context.scope;
    let heap = &mut machine.state.heap;
    let name = Value::Text(name);
    write_reference(machine.alloc, heap, scope, reference, name, looped.place)?;
    names_body(machine, object, names, looped)
}

/// The body of a `for`-`in` loop ends abruptly.
pub fn names_stopped<'p>(
    machine: &mut Machine<'p>,
    object: Value,
    names: NamesLeft,
    looped: ForInLoop<'p>,
    stop: Abrupt<Thrown, Value, ()>,
) -> Step<'p>
    ensures { Leads (at machine.old resumed (frame.Loop (of_loop.ForInBody object names looped.entry)) (Err stop)) machine.old result machine.new }
{
    match stop {
        Abrupt::Thrown(thrown) => Ok(Now::Back(Err(Abrupt::Thrown(thrown)))),
        Abrupt::Returned(value) => Ok(Now::Back(Err(Abrupt::Returned(value)))),
        Abrupt::Broken(()) => Ok(Now::Back(Ok(Value::Undefined))),
        Abrupt::Continued(()) => next_name(machine, object, names, looped),
    }
}
