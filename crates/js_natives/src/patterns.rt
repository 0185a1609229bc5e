// Patterns among the values of natives.
ghost use Rattle.std.specs.Prelude.{◌≡◌, ◌++◌, ◌∷◌, [], IfOk, OnOk, option_map};
ghost use Rattle.js_evaluation.specs.NativeWork as spec;
ghost use Rattle.heap_steps.specs.Works.{Works};

use heap_steps::{Halt, counted};
use heap_values::Value;
use js_pattern_reader::PatternLiteral;
use js_tree::Place;
use object_heap::Heap;
use std::alloc::{AllocError, Global};
use utf16_text::{Memory, Text};

/// `/`.
const SLASH: u16 = 47;

/// The literal of a value that is a pattern. None for any other value.
pub fn literal_in<'a>(heap: &'a Heap, value: &Value) -> Option<&'a PatternLiteral>
    ensures { option_map (λ literal. literal.now) result ≡ spec.literal_in heap.now value.now }
{
    match value {
        Value::Object(object) => heap.literal(*object),
        _ => None,
    }
}

/// Whether a value is a pattern.
pub fn is_pattern(heap: &Heap, value: &Value) -> bool
    ensures { result ≡ spec.is_pattern heap.now value.now }
{
    literal_in(heap, value).is_some()
}

/// The text of a pattern (ECMA-262 5.1, section 15.10.6.4); anything else was refused before.
pub fn pattern_text(
    alloc: Global,
    heap: &mut Heap,
    value: &Value,
    place: Place,
) -> Result<Value, Halt>
    ensures { Works (spec.pattern_text (spec.literal_in heap.old value.now) place) heap.old result heap.new }
{
    match literal_in(heap, value) {
        None => Ok(Value::Undefined),
        Some(literal) => {
            let text = literal_text(alloc, literal)?;
            counted(heap, Value::Text(text), place)
        }
    }
}

/// A literal as a text, with its flags in one order.
fn literal_text(alloc: Global, literal: &PatternLiteral) -> Result<Text, Memory>
    ensures { IfOk result (λ text. text ≡ spec.literal_text literal.now) }
{
    let mut units = Vec::new(alloc);
    units.push(SLASH)?;
    units.extend_from_slice(literal.body().units())?;
    units.push(SLASH)?;
    push_if(&mut units, literal.is_global(), 103)?;
    push_if(&mut units, literal.ignores_case(), 105)?;
    push_if(&mut units, literal.is_multiline(), 109)?;
    Text::from_vec(units)
}

fn push_if(units: &mut Vec<u16>, is_there: bool, unit: u16) -> Result<(), AllocError>
    ensures { OnOk result (units.new.items ≡ units.old.items ++ spec.flag_if is_there (unit ∷ [])) }
{
    if is_there {
        units.push(unit)?;
    }
    Ok(())
}
