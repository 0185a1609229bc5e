// The names that a `for`-`in` loop goes over (ECMA-262 5.1, section 12.6.4).
ghost use Rattle.std.specs.Prelude.{◌≡◌, IfOk, map, length};
ghost use Rattle.js_evaluation.specs.Statements as rule;
ghost use Rattle.std.specs.Fmt.{decimal};
ghost use Rattle.std.specs.List.{range_with_len};
ghost use Rattle.js_machine.specs.Acts.{Acts};
ghost use Rattle.js_statements.specs.Loops as spec;

use heap_steps::{Halt, spend};
use heap_values::{Found, Value};
use js_machine::{State, charge};
use js_tree::Place;
use object_heap::Heap;
use std::alloc::Global;
use utf16_text::{Memory, Text, TextList};
use whole_number::Whole;

/// The names of an object that are listed, and the indexes of a text.
pub fn listed_names(alloc: Global, heap: &Heap, value: &Value) -> Result<TextList, Memory>
    ensures { IfOk result (λ names. names ≡ spec.listed_in heap.now value.now) }
{
    match value {
        Value::Undefined => Ok(TextList::new(alloc)),
        Value::Null => Ok(TextList::new(alloc)),
        Value::Bool(_) => Ok(TextList::new(alloc)),
        Value::Number(_) => Ok(TextList::new(alloc)),
        Value::Text(text) => indexes(alloc, text),
        Value::Object(object) => heap.keys(alloc, *object),
    }
}

/// The indexes of a text, as names. It has fewer than 2^32 units, or there is no memory for them.
fn indexes(alloc: Global, text: &Text) -> Result<TextList, Memory>
    ensures { IfOk result (λ names. names ≡ map decimal (range_with_len 0 (length text.now))) }
{
    let Ok(count) = u32::try_from(text.len()) else {
        return Err(Memory);
    };
    let mut names = TextList::new(alloc);
    for index in 0..count {
        names.push(alloc, Whole::from(index).to_text(alloc)?)?;
    }
    Ok(names)
}

/// Each name of the list costs a unit, and is a text that is made.
pub fn charge_names(state: &mut State, names: &[Text], place: Place) -> Result<(), Halt>
    ensures { Acts (rule.charged_names place names.now) state.old result state.new }
{
    for name in names {
        charge(&mut state.fuel, place)?;
        spend(&mut state.heap, name, place)?;
    }
    Ok(())
}

/// Whether a name of the list is still there; the indexes of a text are.
pub fn is_listed(alloc: Global, heap: &Heap, object: &Value, name: &Text) -> Result<bool, Memory>
    ensures { IfOk result (λ there. there ≡ spec.is_listed_in heap.now object.now name.now) }
{
    match object {
        Value::Undefined => Ok(true),
        Value::Null => Ok(true),
        Value::Bool(_) => Ok(true),
        Value::Number(_) => Ok(true),
        Value::Text(_) => Ok(true),
        Value::Object(id) => Ok(is_there(&heap.get(alloc, *id, name)?)),
    }
}

/// Whether something is found; a mark of what is left out counts.
fn is_there(found: &Found) -> bool
    ensures { result ≡ spec.is_there found.now }
{
    match found {
        Found::Absent => false,
        Found::Value(_) => true,
        Found::LeftOut(_) => true,
    }
}
