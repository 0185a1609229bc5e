// Calls (ECMA-262 5.1, section 11.2.3).
ghost use Rattle.std.specs.Prelude.{[]};
ghost use Rattle.js_tree.specs.Tree.{expressions_of};
ghost use Rattle.js_frames.specs.RestOf.{after_suffix};
ghost use Rattle.js_frames.specs.declared.expression_frame.SuffixFrame.TheVariants as of_suffix;
ghost use Rattle.js_frames.specs.declared.frame.Frame.TheVariants as frame;
ghost use Rattle.js_machine.specs.Moves.{Leads, at, evaluated};
ghost use Rattle.js_primary.specs.Calls as spec;

use heap_steps::callable;
use heap_values::Value;
use js_frames::{Frame, OpenCall, SuffixFrame};
use js_machine::{Machine, Step};
use js_native_calls::type_error;
use js_tree::{Expression, ExpressionList};
use utf16_text::List;

/// A call: first its arguments.
pub fn first_arguments<'p>(
    machine: &mut Machine<'p>,
    call: OpenCall<'p>,
    all: &'p ExpressionList,
) -> Step<'p>
    ensures { Leads (at machine.old spec.arguments_from call.entry [] (expressions_of all.entry.now)) machine.old result machine.new }
{
    let done = List::new(machine.alloc);
    arguments_from(machine, call, done, all.as_slice())
}

/// The arguments behind those that are done, and then the call.
fn arguments_from<'p>(
    machine: &mut Machine<'p>,
    call: OpenCall<'p>,
    done: List<Value>,
    left: &'p [Expression],
) -> Step<'p>
    ensures { Leads (at machine.old spec.arguments_from call.entry done (expressions_of left.entry.now)) machine.old result machine.new }
{
    let mut done = done;
    let mut left = left;
    while let [e, behind @ ..] = left {
        let Some(value) = machine.leaf(e)? else {
            return argument(machine, call, done, e, behind);
        };
        done.push(machine.alloc, value)?;
        left = behind;
    }
    call_value(machine, call, done)
}

/// An argument that is visited.
fn argument<'p>(
    machine: &mut Machine<'p>,
    call: OpenCall<'p>,
    done: List<Value>,
    e: &'p Expression,
    left: &'p [Expression],
) -> Step<'p>
    ensures { Leads (at machine.old evaluated e.entry.now (frame.Suffix (of_suffix.Argument call.entry done left.entry))) machine.old result machine.new }
{
    let frame = SuffixFrame::Argument { call, done, left };
    machine.evaluate(e, Frame::Suffix(frame))
}

/// An argument has this value.
pub fn argument_done<'p>(
    machine: &mut Machine<'p>,
    call: OpenCall<'p>,
    done: List<Value>,
    left: &'p [Expression],
    value: Value,
) -> Step<'p>
    ensures { Leads (at machine.old after_suffix (of_suffix.Argument call.entry done left.entry) value) machine.old result machine.new }
{
    let mut done = done;
    done.push(machine.alloc, value)?;
    arguments_from(machine, call, done, left)
}

/// Calls a value as a function, where it is one; then come the suffixes behind the call.
fn call_value<'p>(machine: &mut Machine<'p>, call: OpenCall<'p>, arguments: List<Value>) -> Step<'p>
    ensures { Leads (at machine.old spec.call_value call.entry arguments) machine.old result machine.new }
{
    let OpenCall {
        aim,
        this,
        callee,
        place,
        rest,
    } = call;
    match callable(&machine.state.heap, &callee) {
        Some(function) => {
            let frame = Frame::Suffix(SuffixFrame::Called { aim, rest });
            machine.call(function, this, arguments, place, frame)
        }
        None => type_error(machine, b"not a function", place),
    }
}
