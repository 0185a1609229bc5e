// `++` and `--` (ECMA-262 5.1, sections 11.3, 11.4.4 and 11.4.5).
ghost use Rattle.std.specs.Prelude.{◌≡◌};
ghost use Rattle.heap_values.specs.declared.value.Value.TheVariants as value;
ghost use Rattle.js_evaluation.specs.Expressions as rule;
ghost use Rattle.js_evaluation.specs.Scoping.{by_slots};
ghost use Rattle.js_frames.specs.Parts.{reference_of};
ghost use Rattle.js_frames.specs.RestOf.{after_target, with_primitive};
ghost use Rattle.js_frames.specs.declared.target_frame.TargetFrame.TheVariants as of_target;
ghost use Rattle.js_frames.specs.declared.wanted.Wanted.TheVariants as wanted;
ghost use Rattle.js_machine.specs.Moves.{Leads, Moves, at};

use crate::primitives::primitive;
use heap_steps::{number_or_fault, stepped};
use heap_values::Value;
use js_convert::to_number;
use js_frames::{Frame, Methods, Reference, TargetFrame, Wanted};
use js_machine::{Machine, Now, Step, read_reference, write_reference};
use js_tree::{Expression, Place, UpdateForm, UpdateOp};
use whole_number::Whole;

/// `++` or `--`: first its target.
pub fn updated<'p>(
    machine: &mut Machine<'p>,
    form: UpdateForm,
    op: UpdateOp,
    target: &'p Expression,
    place: Place,
) -> Step<'p>
    ensures { Moves (at machine.old (rule.updated by_slots) place form op target.entry.now) machine.old result machine.new }
{
    match machine.leaf_target(target)? {
        Some(reference) => update_done(machine, form, op, place, reference),
        None => {
            let frame = TargetFrame::Update { form, op, place };
            machine.refer(target, Frame::Target(frame))
        }
    }
}

/// The target refers to this: it is read, and becomes a number.
pub fn update_done<'p>(
    machine: &mut Machine<'p>,
    form: UpdateForm,
    op: UpdateOp,
    place: Place,
    reference: Reference<'p>,
) -> Step<'p>
    ensures { Leads (at machine.old after_target (of_target.Update form op place) (reference_of reference.entry)) machine.old result machine.new }
{
    let scope = machine.context.scope;
    let heap = &mut machine.state.heap;
    let old = read_reference(machine.alloc, heap, scope, &reference)?;
    let wanted = Wanted::Update {
        form,
        op,
        reference,
        place,
    };
    primitive(machine, Methods::ForNumber, old, place, wanted)
}

/// The value of the target is primitive: the number behind it is written.
pub fn update_by<'p>(
    machine: &mut Machine<'p>,
    form: UpdateForm,
    op: UpdateOp,
    reference: Reference<'p>,
    place: Place,
    old: &Value,
) -> Step<'p>
    ensures { Leads (at machine.old with_primitive (wanted.Update form op reference.entry place) old.now) machine.old result machine.new }
{
    let old = number_or_fault(to_number(old), place)?;
    let new = stepped(op, old, place)?;
    let scope = machine.context.scope;
    let heap = &mut machine.state.heap;
    write_reference(
        machine.alloc,
        heap,
        scope,
        &reference,
        Value::Number(new),
        place,
    )?;
    Ok(Now::Back(Ok(given_by(form, old, new))))
}

/// The new number where the operator stands before its target, and the old one where it stands behind it.
fn given_by(form: UpdateForm, old: Whole, new: Whole) -> Value
    ensures { result ≡ rule.given_by form (value.Number old) (value.Number new) }
{
    match form {
        UpdateForm::Prefix => Value::Number(new),
        UpdateForm::Postfix => Value::Number(old),
    }
}
