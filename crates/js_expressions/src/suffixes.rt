// Members, indexes and calls, and what they refer to (ECMA-262 5.1, sections 8.7 and 11.2).
ghost use Rattle.std.specs.Prelude.{◌≡◌, Ok};
ghost use Rattle.js_tree.specs.Tree.{no_suffix};
ghost use Rattle.js_tree.specs.View.{suffix_of, suffixes_of};
ghost use Rattle.heap_values.specs.declared.value.Value.{Value};
ghost use Rattle.heap_values.specs.declared.value.Value.TheVariants as value;
ghost use Rattle.js_convert.specs.Texts.{text_of};
ghost use Rattle.js_evaluation.specs.Expressions as rule;
ghost use Rattle.js_evaluation.specs.Scoping.{by_slots};
ghost use Rattle.js_evaluation.specs.State.{global_object};
ghost use Rattle.js_frames.specs.Parts.{reference_of};
ghost use Rattle.js_frames.specs.RestOf.{after_suffix, after_target, suffixes_by};
ghost use Rattle.js_frames.specs.declared.frame.Frame.TheVariants as frame;
ghost use Rattle.js_frames.specs.declared.expression_frame.SuffixFrame.TheVariants as of_suffix;
ghost use Rattle.js_frames.specs.declared.target_frame.TargetFrame.TheVariants as of_target;
ghost use Rattle.heap_steps.specs.Works.{Works};
ghost use Rattle.js_machine.specs.declared.machine.Machine.{Machine};
ghost use Rattle.js_machine.specs.Moves.{Leads, Refers, at, evaluated};
ghost use Rattle.js_expressions.specs.Suffixes as spec;

use crate::primitives::primitive;
use heap_steps::{Halt, get, get_by, test_base};
use heap_values::{BuiltIn, ObjectId, Value};
use js_frames::{Aim, Frame, Methods, OpenCall, Reference, SuffixFrame, TargetFrame, Wanted};
use js_grammar::is_target;
use js_machine::{Machine, Now, Step, charge, read_reference};
use js_native_calls::convert;
use js_primary::first_arguments;
use js_tree::{Expression, ExpressionNode, Place, Suffix, SuffixNode};
use object_heap::Heap;
use std::alloc::Global;
use utf16_text::Text;

/// An expression with suffixes: first what they are applied to. A property is referred to, since its base is the `this`
/// of a call.
pub fn suffixed<'p>(
    machine: &mut Machine<'p>,
    aim: Aim,
    first: &'p Expression,
    suffixes: &'p [Suffix],
) -> Step<'p>
    ensures { Leads (at machine.old spec.suffixed_by aim first.entry.now (suffixes_of suffixes.entry.now)) machine.old result machine.new }
{
    if refers_to_property(first) {
        let frame = TargetFrame::First { aim, suffixes };
        return machine.refer(first, Frame::Target(frame));
    }
    match machine.leaf(first)? {
        Some(value) => applied(machine, aim, value, suffixes),
        None => {
            let frame = SuffixFrame::First { aim, suffixes };
            machine.evaluate(first, Frame::Suffix(frame))
        }
    }
}

/// Whether an expression refers to a property.
fn refers_to_property(e: &Expression) -> bool
    ensures { result ≡ rule.refers_to_property e.now }
{
    match &e.node {
        ExpressionNode::Suffixed(_, _) => is_target(e),
        _ => false,
    }
}

/// What suffixes are applied to refers to this property. It is read.
pub fn first_referred<'p>(
    machine: &mut Machine<'p>,
    aim: Aim,
    reference: Reference<'p>,
    suffixes: &'p [Suffix],
) -> Step<'p>
    ensures { Leads (at machine.old after_target (of_target.First aim suffixes.entry) (reference_of reference.entry)) machine.old result machine.new }
{
    let scope = machine.context.scope;
    let heap = &mut machine.state.heap;
    let value = read_reference(machine.alloc, heap, scope, &reference)?;
    let this = this_of(heap, reference);
    suffixes_from(machine, aim, this, value, suffixes)
}

/// The `this` of a call of what is referred to (ECMA-262 5.1, section 11.2.3).
fn this_of(heap: &Heap, reference: Reference) -> Value
    ensures { result ≡ rule.this_of (reference_of reference.entry) }
{
    match reference {
        Reference::Name { .. } => global_value(heap),
        Reference::Property { base, .. } => base,
    }
}

/// The global object.
fn global_value(heap: &Heap) -> Value
    ensures { result ≡ global_object }
{
    Value::Object(heap.built_in(BuiltIn::Global))
}

/// Suffixes behind a value that is no reference, as that of a call. A call of it has the global object as its `this`.
pub fn applied<'p>(
    machine: &mut Machine<'p>,
    aim: Aim,
    value: Value,
    suffixes: &'p [Suffix],
) -> Step<'p>
    ensures { Leads (at machine.old suffixes_by aim global_object value (suffixes_of suffixes.entry.now)) machine.old result machine.new }
{
    let this = global_value(&machine.state.heap);
    suffixes_from(machine, aim, this, value, suffixes)
}

/// Suffixes, each charged where it is applied. What the last one of a target refers to isn't read.
pub fn suffixes_from<'p>(
    machine: &mut Machine<'p>,
    aim: Aim,
    this: Value,
    value: Value,
    suffixes: &'p [Suffix],
) -> Step<'p>
    ensures { Leads (at machine.old suffixes_by aim this value (suffixes_of suffixes.entry.now)) machine.old result machine.new }
{
    let mut this = this;
    let mut value = value;
    let mut left = suffixes;
    while let [suffix, rest @ ..] = left {
        let place = suffix.place;
        charge(&mut machine.state.fuel, place)?;
        if is_last(aim, rest) {
            return last_of_target(machine, value, suffix);
        }
        let found = match &suffix.node {
            SuffixNode::Member(name) => {
                let heap = &mut machine.state.heap;
                member(machine.alloc, heap, &value, name, place)?
            }
            SuffixNode::Index(e) => {
                let Some(key) = machine.leaf(e)? else {
                    return index(machine, aim, value, e, place, rest);
                };
                match key {
                    Value::Object(key) => {
                        return object_index(machine, aim, value, key, place, rest);
                    }
                    key => {
                        let heap = &mut machine.state.heap;
                        element(machine.alloc, heap, &value, &key, place)?
                    }
                }
            }
            SuffixNode::Call(all) => {
                let call = OpenCall {
                    aim,
                    this,
                    callee: value,
                    place,
                    rest,
                };
                return first_arguments(machine, call, all);
            }
        };
        this = value;
        value = found;
        left = rest;
    }
    Ok(behind_suffixes(aim, value))
}

/// Whether the suffix before these is the last one of a target.
fn is_last(aim: Aim, rest: &[Suffix]) -> bool
    ensures { result ≡ spec.is_last aim rest.now }
{
    match aim {
        Aim::Value => false,
        Aim::Target => rest.is_empty(),
    }
}

/// No suffix is left.
fn behind_suffixes<'p>(aim: Aim, value: Value) -> Now<'p>
    ensures { (m : Machine) (this : Value) → Leads (at m suffixes_by aim this value no_suffix) m (Ok result) m }
{
    match aim {
        Aim::Value => Now::Back(Ok(value)),
        Aim::Target => Now::Refers(Reference::none()),
    }
}

/// A member of a value.
fn member(
    alloc: Global,
    heap: &mut Heap,
    base: &Value,
    name: &Text,
    place: Place,
) -> Result<Value, Halt>
    ensures { Works (spec.member base.now name.now place) heap.old result heap.new }
{
    test_base(alloc, heap, base, place)?;
    get(alloc, heap, base, name, place)
}

/// What a value has under a primitive key.
fn element(
    alloc: Global,
    heap: &mut Heap,
    base: &Value,
    key: &Value,
    place: Place,
) -> Result<Value, Halt>
    ensures { Works (spec.member base.now (text_of key.now) place) heap.old result heap.new }
{
    test_base(alloc, heap, base, place)?;
    get_by(alloc, heap, base, key, place)
}

/// The index of a value.
fn index<'p>(
    machine: &mut Machine<'p>,
    aim: Aim,
    base: Value,
    index: &'p Expression,
    place: Place,
    rest: &'p [Suffix],
) -> Step<'p>
    ensures { Leads (at machine.old evaluated index.entry.now (frame.Suffix (of_suffix.Index aim base place rest.entry))) machine.old result machine.new }
{
    let frame = SuffixFrame::Index {
        aim,
        base,
        place,
        rest,
    };
    machine.evaluate(index, Frame::Suffix(frame))
}

/// What the last suffix of a target refers to.
fn last_of_target<'p>(machine: &mut Machine<'p>, base: Value, suffix: &'p Suffix) -> Step<'p>
    ensures { Refers (at machine.old (rule.referred_at by_slots) base (suffix_of suffix.entry.now.place suffix.entry.now.node)) machine.old result machine.new }
{
    let place = suffix.place;
    match &suffix.node {
        SuffixNode::Member(name) => {
            let heap = &mut machine.state.heap;
            test_base(machine.alloc, heap, &base, place)?;
            let name = name.copy(machine.alloc)?;
            let key = Value::Text(name);
            Ok(Now::Refers(Reference::Property { place, base, key }))
        }
        SuffixNode::Index(e) => {
            let frame = SuffixFrame::Key { base, place };
            machine.evaluate(e, Frame::Suffix(frame))
        }
        SuffixNode::Call(_) => Ok(Now::Refers(Reference::none())),
    }
}

/// The index of a base has this value, which becomes a primitive one.
pub fn index_done<'p>(
    machine: &mut Machine<'p>,
    aim: Aim,
    base: Value,
    place: Place,
    rest: &'p [Suffix],
    value: Value,
) -> Step<'p>
    ensures { Leads (at machine.old after_suffix (of_suffix.Index aim base place rest.entry) value) machine.old result machine.new }
{
    match value {
        Value::Object(key) => object_index(machine, aim, base, key, place, rest),
        key => {
            let heap = &mut machine.state.heap;
            let value = element(machine.alloc, heap, &base, &key, place)?;
            suffixes_from(machine, aim, base, value, rest)
        }
    }
}

/// The index of a base is an object, which becomes a primitive value.
fn object_index<'p>(
    machine: &mut Machine<'p>,
    aim: Aim,
    base: Value,
    key: ObjectId,
    place: Place,
    rest: &'p [Suffix],
) -> Step<'p>
    ensures { Leads (at machine.old after_suffix (of_suffix.Index aim base place rest.entry) (value.Object key)) machine.old result machine.new }
{
    let heap = &mut machine.state.heap;
    test_base(machine.alloc, heap, &base, place)?;
    let wanted = Wanted::Index {
        aim,
        base,
        place,
        rest,
    };
    convert(machine, Methods::ForText, key, place, wanted)
}

/// The index of the last suffix of a target has this value.
pub fn key_done<'p>(machine: &mut Machine<'p>, base: Value, place: Place, value: Value) -> Step<'p>
    ensures { Leads (at machine.old after_suffix (of_suffix.Key base place) value) machine.old result machine.new }
{
    let heap = &mut machine.state.heap;
    test_base(machine.alloc, heap, &base, place)?;
    let wanted = Wanted::Key { base, place };
    primitive(machine, Methods::ForText, value, place, wanted)
}
