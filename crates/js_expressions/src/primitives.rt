// Objects as primitive values (ECMA-262 5.1, sections 8.12.8 and 9.1), and what these are wanted for.
ghost use Rattle.std.specs.Prelude.{◌≡◌, Ok, neg_ℤ, negsuc, ◌-ℤ◌};
ghost use Rattle.js_frames.specs.Parts.{names_of};
ghost use Rattle.js_frames.specs.RestOf.{with_primitive};
ghost use Rattle.js_frames.specs.declared.frame.Frame.TheVariants as frame;
ghost use Rattle.js_frames.specs.declared.wanted.Wanted.TheVariants as wanted;
ghost use Rattle.js_machine.specs.declared.machine.Machine.{Machine};
ghost use Rattle.js_machine.specs.Moves.{Leads, at, resumed};
ghost use Rattle.js_expressions.specs.Primitives as spec;

use crate::operators::{operated, right_operand, with_in};
use crate::suffixes::suffixes_from;
use crate::updates::update_by;
use heap_steps::{bits_or_fault, get_by, number_or_fault};
use heap_values::{ObjectId, Value};
use js_convert::to_number;
use js_frames::{Aim, Methods, Reference, Wanted};
use js_machine::{Machine, Now, Step};
use js_native_calls::{
    begin_converted, convert, element_converted, error_message, error_named, value_converted,
};
use js_tree::{Place, Suffix};
use whole_number::Whole;

/// A primitive value, for what it is wanted for: an object is asked by its methods.
pub fn primitive<'p>(
    machine: &mut Machine<'p>,
    methods: Methods,
    value: Value,
    place: Place,
    wanted: Wanted<'p>,
) -> Step<'p>
    ensures { Leads (at machine.old spec.primitive (names_of methods) value place wanted.entry) machine.old result machine.new }
{
    match value {
        Value::Object(object) => convert(machine, methods, object, place, wanted),
        value => primitive_done(machine, wanted, value),
    }
}

/// A method of an object gave this value: a primitive one is taken.
pub fn method_done<'p>(
    machine: &mut Machine<'p>,
    object: ObjectId,
    methods: Methods,
    place: Place,
    wanted: Wanted<'p>,
    value: Value,
) -> Step<'p>
    ensures { Leads (at machine.old resumed (frame.Primitive object methods place wanted.entry) (Ok value)) machine.old result machine.new }
{
    match value {
        Value::Object(_) => convert(machine, methods, object, place, wanted),
        value => primitive_done(machine, wanted, value),
    }
}

/// What is wanted of a primitive value is done with it.
fn primitive_done<'p>(machine: &mut Machine<'p>, wanted: Wanted<'p>, value: Value) -> Step<'p>
    ensures { Leads (at machine.old with_primitive wanted.entry value) machine.old result machine.new }
{
    match wanted {
        Wanted::Plus { place } => plus(&value, place),
        Wanted::Minus { place } => minus(&value, place),
        Wanted::BitNot { place } => bit_not(&value, place),
        Wanted::Update {
            form,
            op,
            reference,
            place,
        } => update_by(machine, form, op, reference, place, &value),
        Wanted::Index {
            aim,
            base,
            place,
            rest,
        } => index_by(machine, aim, base, place, rest, &value),
        Wanted::Key { base, place } => {
            let key = value;
            Ok(Now::Refers(Reference::Property { place, base, key }))
        }
        Wanted::In {
            object,
            place,
            next,
        } => with_in(machine, object, &value, place, next),
        Wanted::Left {
            op,
            right,
            place,
            next,
        } => right_operand(machine, op, value, right, place, next),
        Wanted::Right {
            op,
            left,
            place,
            next,
        } => operated(machine, op, &left, &value, place, next),
        Wanted::ErrorName { error, place } => error_named(machine, error, &value, place),
        Wanted::ErrorMessage { name, place } => error_message(machine, &name, &value, place),
        Wanted::Handed {
            native,
            left,
            done,
            handed,
            place,
        } => value_converted(machine, native, left, done, handed, place, value),
        Wanted::Begin {
            native,
            values,
            place,
        } => begin_converted(machine, native, values, place, value),
        Wanted::Element {
            left,
            count,
            array,
            texts,
            separator,
            place,
        } => element_converted(machine, left, count, array, texts, separator, place, &value),
    }
}

/// `+` before a value (ECMA-262 5.1, section 11.4.6).
fn plus<'p>(value: &Value, place: Place) -> Step<'p>
    ensures { (m : Machine) → Leads (at m with_primitive (wanted.Plus place) value.now) m result m }
{
    let number = number_or_fault(to_number(value), place)?;
    Ok(Now::Back(Ok(Value::Number(number))))
}

/// `-` before a value (ECMA-262 5.1, section 11.4.7).
fn minus<'p>(value: &Value, place: Place) -> Step<'p>
    ensures { (m : Machine) → Leads (at m with_primitive (wanted.Minus place) value.now) m result m }
{
    let number = number_or_fault(to_number(value), place)?;
    Ok(Now::Back(Ok(Value::Number(negative(number)))))
}

fn negative(number: Whole) -> Whole
    ensures { result ≡ neg_ℤ number }
{
    match Whole::new(-number.get()) {
        Some(negative) => negative,
        None => number,
    }
}

/// `~` before a value (ECMA-262 5.1, section 11.4.8).
fn bit_not<'p>(value: &Value, place: Place) -> Step<'p>
    ensures { (m : Machine) → Leads (at m with_primitive (wanted.BitNot place) value.now) m result m }
{
    let bits = bits_or_fault(to_number(value), place)?;
    Ok(Now::Back(Ok(Value::Number(Whole::from(inverted(bits))))))
}

fn inverted(bits: i32) -> i32
    ensures { result ≡ negsuc 0 -ℤ bits }
{
    -1 - bits
}

/// The property of a base under a key, and then the suffixes behind it.
fn index_by<'p>(
    machine: &mut Machine<'p>,
    aim: Aim,
    base: Value,
    place: Place,
    rest: &'p [Suffix],
    key: &Value,
) -> Step<'p>
    ensures { Leads (at machine.old with_primitive (wanted.Index aim base place rest.entry) key.now) machine.old result machine.new }
{
    let heap = &mut machine.state.heap;
    let value = get_by(machine.alloc, heap, &base, key, place)?;
    suffixes_from(machine, aim, base, value, rest)
}
