// What the walks of natives cost.
ghost use Rattle.std.specs.Prelude.{◌≡◌, ◌+◌, ◌*◌, ◌<◌, ◌≤◌, IfOk, MatchOption, length, ℕ};
ghost use Rattle.js_convert.specs.Texts.{text_of};
ghost use Rattle.js_evaluation.specs.Handed as given;
ghost use Rattle.js_evaluation.specs.NativeWork as work;
ghost use Rattle.js_evaluation.specs.NativeTable as table;
ghost use Rattle.js_evaluation.specs.PacNatives.{pac_walk};
ghost use Rattle.js_evaluation.specs.Walks as spec;
ghost use Rattle.js_natives.specs.Charges.{Charges};
ghost use Rattle.pac_functions.specs.Texts.{text_in};

use heap_steps::Halt;
use heap_values::Value;
use js_convert::to_text;
use js_evaluation::{FaultCode, Native, PlainNative, Walk};
use js_native_table::walk_of;
use js_tree::Place;
use object_heap::Heap;
use pac_functions::PacFunction;
use std::alloc::Global;
use utf16_text::Memory;

/// The argument in a place, counted from 0; undefined where it is missing.
pub fn argument(alloc: Global, arguments: &[Value], at: usize) -> Result<Value, Memory>
    ensures { IfOk result (λ value. value ≡ given.argument at arguments.now) }
{
    match arguments.get(at) {
        None => Ok(Value::Undefined),
        Some(value) => value.copy(alloc),
    }
}

/// Takes what the walk of a function of the proxy format costs, whose arguments are converted.
pub fn charge_walk(
    alloc: Global,
    fuel: &mut u64,
    function: PacFunction,
    arguments: &[Value],
    place: Place,
) -> Result<(), Halt>
    ensures { Charges (pac_walk function arguments.now) place fuel.old result fuel.new }
{
    let walk = walk_of(Native::Pac(function));
    charge_values(alloc, fuel, walk, arguments, arguments.len(), place)
}

/// Takes what the walk of a native costs that goes over values alone, on those that it takes, which are converted: so
/// many were handed to it, surplus ones too.
pub fn charge_walk_of(
    alloc: Global,
    fuel: &mut u64,
    native: Native,
    values: &[Value],
    handed: usize,
    place: Place,
) -> Result<(), Halt>
    ensures { Charges (spec.values_walk (table.walk_of native) values.now handed) place fuel.old result fuel.new }
{
    charge_values(alloc, fuel, walk_of(native), values, handed, place)
}

/// Takes what the walk of a native costs on the values that it takes, which are converted: so many were handed to it,
/// surplus ones too.
pub fn charge_plain_walk(
    alloc: Global,
    fuel: &mut u64,
    heap: &Heap,
    native: PlainNative,
    values: &[Value],
    handed: usize,
    place: Place,
) -> Result<(), Halt>
    ensures { Charges (work.plain_walk native heap.now values.now handed) place fuel.old result fuel.new }
{
    let walk = walk_of(Native::Plain(native));
    charge_by(alloc, fuel, heap, walk, values, handed, place)
}

/// Takes what a walk costs.
fn charge_by(
    alloc: Global,
    fuel: &mut u64,
    heap: &Heap,
    walk: Walk,
    values: &[Value],
    handed: usize,
    place: Place,
) -> Result<(), Halt>
    ensures { Charges (work.walk_by walk heap.now values.now handed) place fuel.old result fuel.new }
{
    match walk {
        Walk::Keys => charge_keys(alloc, fuel, heap, values, place),
        Walk::Elements => charge_elements(fuel, heap, values, place),
        Walk::AllElements => charge_concat(fuel, heap, values, place),
        _ => charge_values(alloc, fuel, walk, values, handed, place),
    }
}

/// Takes what a walk costs over values alone; one that goes over objects costs nothing here.
fn charge_values(
    alloc: Global,
    fuel: &mut u64,
    walk: Walk,
    values: &[Value],
    handed: usize,
    place: Place,
) -> Result<(), Halt>
    ensures { Charges (spec.values_walk walk values.now handed) place fuel.old result fuel.new }
{
    match walk {
        Walk::Values => charge_units(fuel, Some(handed as u64), place),
        Walk::Arguments => charge_arguments(fuel, values, place),
        Walk::Texts => charge_text_units(fuel, values, place),
        Walk::Search => charge_search(fuel, values, place),
        Walk::Units => charge_texts(alloc, fuel, values, place),
        Walk::Pattern => charge_match(alloc, fuel, values, place),
        _ => Ok(()),
    }
}

/// Takes the units of the arguments, each as a text.
fn charge_texts(
    alloc: Global,
    fuel: &mut u64,
    arguments: &[Value],
    place: Place,
) -> Result<(), Halt>
    ensures { Charges (spec.units_of arguments.now) place fuel.old result fuel.new }
{
    let mut left = arguments;
    while let [value, rest @ ..] = left {
        let units = units_of(alloc, value)?;
        charge_units(fuel, Some(units), place)?;
        left = rest;
    }
    Ok(())
}

/// How many units the text of a value has.
fn units_of(alloc: Global, value: &Value) -> Result<u64, Memory>
    ensures { IfOk result (λ units. units ≡ length (text_of value.now)) }
{
    match value {
        Value::Text(text) => Ok(text.len() as u64),
        value => Ok(to_text(alloc, value)?.len() as u64),
    }
}

/// Takes each place of the text of the first argument, with the one behind its end, beside each of the second.
fn charge_match(
    alloc: Global,
    fuel: &mut u64,
    arguments: &[Value],
    place: Place,
) -> Result<(), Halt>
    ensures { Charges (spec.match_walk (text_in arguments.now 0) (text_in arguments.now 1)) place fuel.old result fuel.new }
{
    let text = units_of(alloc, &argument(alloc, arguments, 0)?)?;
    let pattern = units_of(alloc, &argument(alloc, arguments, 1)?)?;
    charge_units(fuel, walk_beside(text, pattern), place)
}

/// Takes the count of the names that `Object.keys` lists.
fn charge_keys(
    alloc: Global,
    fuel: &mut u64,
    heap: &Heap,
    values: &[Value],
    place: Place,
) -> Result<(), Halt>
    ensures { Charges (length (work.keys_in heap.now (given.argument 0 values.now))) place fuel.old result fuel.new }
{
    let object = argument(alloc, values, 0)?;
    let keys = keys_in(alloc, heap, &object)?;
    charge_units(fuel, Some(keys), place)
}

/// How many names `Object.keys` lists of a value.
fn keys_in(alloc: Global, heap: &Heap, value: &Value) -> Result<u64, Memory>
    ensures { IfOk result (λ count. count ≡ length (work.keys_in heap.now value.now)) }
{
    match value {
        Value::Object(object) => Ok(heap.own_keys(alloc, *object)?.len() as u64),
        _ => Ok(0),
    }
}

/// Takes each place of the text of the first value, with the one behind its end, beside each of the second; the units
/// of the texts where that is a pattern.
fn charge_search(fuel: &mut u64, values: &[Value], place: Place) -> Result<(), Halt>
    ensures { Charges (spec.search_walk values.now) place fuel.old result fuel.new }
{
    match values.get(1) {
        Some(Value::Object(_)) => charge_text_units(fuel, values, place),
        _ => charge_units(
            fuel,
            walk_beside(units_at(values, 0), units_at(values, 1)),
            place,
        ),
    }
}

/// Takes the units of the texts among values.
fn charge_text_units(fuel: &mut u64, values: &[Value], place: Place) -> Result<(), Halt>
    ensures { Charges (spec.text_units values.now) place fuel.old result fuel.new }
{
    let mut left = values;
    while let [value, rest @ ..] = left {
        charge_units(fuel, Some(units_in(value)), place)?;
        left = rest;
    }
    Ok(())
}

/// The units of the text in a place, counted from 0; any other value has none.
fn units_at(values: &[Value], at: usize) -> u64
    ensures { result ≡ spec.units_in (given.argument at values.now) }
{
    match values.get(at) {
        None => 0,
        Some(value) => units_in(value),
    }
}

/// The units of a text; any other value has none.
fn units_in(value: &Value) -> u64
    ensures { result ≡ spec.units_in value.now }
{
    match value {
        Value::Text(text) => text.len() as u64,
        _ => 0,
    }
}

/// Takes one unit for each value behind the receiver.
fn charge_arguments(fuel: &mut u64, values: &[Value], place: Place) -> Result<(), Halt>
    ensures { Charges (spec.arguments_walk values.now) place fuel.old result fuel.new }
{
    match values {
        [] => Ok(()),
        [_, arguments @ ..] => charge_units(fuel, Some(arguments.len() as u64), place),
    }
}

/// Takes the arguments, and the elements of all arrays.
fn charge_concat(fuel: &mut u64, heap: &Heap, values: &[Value], place: Place) -> Result<(), Halt>
    ensures { Charges (work.concat_walk heap.now values.now) place fuel.old result fuel.new }
{
    charge_arguments(fuel, values, place)?;
    charge_lengths(fuel, heap, values, place)
}

/// Takes the elements of the arrays among values.
fn charge_lengths(fuel: &mut u64, heap: &Heap, values: &[Value], place: Place) -> Result<(), Halt>
    ensures { Charges (work.lengths_in heap.now values.now) place fuel.old result fuel.new }
{
    let mut left = values;
    while let [value, rest @ ..] = left {
        charge_units(fuel, Some(elements_in(heap, value)), place)?;
        left = rest;
    }
    Ok(())
}

/// Takes the elements of the receiver, and the arguments.
pub fn charge_elements(
    fuel: &mut u64,
    heap: &Heap,
    handed: &[Value],
    place: Place,
) -> Result<(), Halt>
    ensures { Charges (work.elements_walk heap.now handed.now) place fuel.old result fuel.new }
{
    match handed {
        [] => Ok(()),
        [receiver, arguments @ ..] => {
            let elements = elements_in(heap, receiver);
            charge_units(fuel, elements.checked_add(arguments.len() as u64), place)
        }
    }
}

/// The length of an array; any other value has none.
fn elements_in(heap: &Heap, value: &Value) -> u64
    ensures { result ≡ work.elements_in heap.now value.now }
{
    match value {
        Value::Object(object) => u64::from(heap.length(*object)),
        _ => 0,
    }
}

/// Each place of one text, with the one behind its end, beside each of another. None for more than any fuel.
fn walk_beside(text: u64, pattern: u64) -> Option<u64>
    ensures { MatchOption result (18446744073709551616 ≤ (text + 1) * (pattern + 1)) (λ walk. walk ≡ (text + 1) * (pattern + 1)) }
{
    let places = text.checked_add(1)?;
    let beside = pattern.checked_add(1)?;
    places.checked_mul(beside)
}

/// Takes so many units. They are spent where fewer are left; None is more than any fuel.
fn charge_units(fuel: &mut u64, units: Option<u64>, place: Place) -> Result<(), Halt>
    ensures { (n : ℕ) → MatchOption units (18446744073709551616 ≤ n) (λ walk. walk ≡ n) → Charges n place fuel.old result fuel.new }
{
    match left_of(*fuel, units) {
        None => Err(Halt::Fault {
            code: FaultCode::FuelSpent,
            place,
        }),
        Some(left) => {
            *fuel = left;
            Ok(())
        }
    }
}

/// The fuel that so many units leave. None where there is less.
fn left_of(fuel: u64, units: Option<u64>) -> Option<u64>
    ensures { (n : ℕ) → MatchOption units (18446744073709551616 ≤ n) (λ walk. walk ≡ n) → MatchOption result (fuel < n) (λ left. left + n ≡ fuel) }
{
    match units {
        None => None,
        Some(units) => fuel.checked_sub(units),
    }
}
