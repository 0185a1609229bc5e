// How a run ends.
ghost use Rattle.std.specs.Prelude.{◌≡◌, IfOk, Ok};
ghost use Rattle.heap_values.specs.declared.ids.Kind.TheVariants as kind;
ghost use Rattle.object_heap.specs.Heap.{found_of, kind_in, object_at};
ghost use Rattle.heap_steps.specs.Works.{plain_fault};
ghost use Rattle.js_evaluation.specs.Evaluation as spec;
ghost use Rattle.js_evaluation.specs.Evaluation.{Fails};
ghost use Rattle.js_evaluation.specs.State.{Comes, RunState};
ghost use Rattle.js_interp.specs.Endings.{EndsBy, EndsWith, seen_ending};

use crate::Ending;
use crate::one_run::Unfinished;
use heap_steps::Halt;
use heap_values::{Found, Kind, ObjectId, Value};
use js_convert::to_text;
use js_evaluation::{Fault, FaultCode, Thrown};
use js_frames::OUTSIDE;
use js_host::kept_units;
use js_machine::End;
use js_native_calls::joined;
use js_natives::class_of;
use js_runs::Cut;
use js_tree::Place;
use object_heap::Heap;
use run_trees::Abrupt;
use std::alloc::Global;
use utf16_text::{Memory, Text};

/// How a run ends over a host, where it isn't stopped at a name, that comes to this with this heap.
pub(crate) fn ended(alloc: Global, heap: &Heap, end: Result<End, Cut>) -> Result<Ending, Unfinished>
    ensures { EndsWith heap.now end result }
{
    match end {
        Ok(end) => Ok(ending(alloc, heap, Ok(end))?),
        Err(Cut::Halt(halt)) => Ok(ending(alloc, heap, Err(halt))?),
        Err(Cut::Missing(name)) => Err(Unfinished::Missing(name)),
    }
}

/// How a run ends that comes to this with this heap. What is thrown and not handled is a fault.
fn ending(alloc: Global, heap: &Heap, end: Result<End, Halt>) -> Result<Ending, Memory>
    ensures { EndsBy heap.now end result }
{
    match end {
        Ok(Ok(value)) => given(alloc, value),
        Ok(Err(Abrupt::Thrown(thrown))) => uncaught(alloc, heap, thrown),
        Ok(Err(_)) => failed(alloc, FaultCode::NotAString, OUTSIDE),
        Err(Halt::Throw(thrown)) => uncaught(alloc, heap, thrown),
        Err(Halt::Fault { code, place }) => failed(alloc, code, place),
        Err(Halt::LeftOut { name, place }) => Ok(Ending::Fault(Fault {
            code: FaultCode::Unsupported,
            place,
            detail: name,
        })),
        Err(Halt::Memory) => Err(Memory),
    }
}

/// How a run ends that is given this by the script's function.
fn given(alloc: Global, value: Value) -> Result<Ending, Memory>
    ensures { IfOk result (λ ending. (state : RunState) → seen_ending ending ≡ spec.ending_of (Comes (Ok value) state)) }
{
    match value {
        Value::Text(text) => Ok(Ending::Result(text)),
        Value::Undefined => failed(alloc, FaultCode::NotAString, OUTSIDE),
        Value::Null => failed(alloc, FaultCode::NotAString, OUTSIDE),
        Value::Bool(_) => failed(alloc, FaultCode::NotAString, OUTSIDE),
        Value::Number(_) => failed(alloc, FaultCode::NotAString, OUTSIDE),
        Value::Object(_) => failed(alloc, FaultCode::NotAString, OUTSIDE),
    }
}

/// A fault without a detail.
fn failed(alloc: Global, code: FaultCode, place: Place) -> Result<Ending, Memory>
    ensures { IfOk result (λ ending. seen_ending ending ≡ Fails (plain_fault code place)) }
{
    let detail = Text::from_latin_1(alloc, b"")?;
    Ok(Ending::Fault(Fault {
        code,
        place,
        detail,
    }))
}

/// The fault of a throw that leaves the script.
fn uncaught(alloc: Global, heap: &Heap, thrown: Thrown) -> Result<Ending, Memory>
    ensures { IfOk result (λ ending. seen_ending ending ≡ spec.uncaught heap.now thrown.value thrown.place) }
{
    let text = thrown_text(alloc, heap, &thrown.value)?;
    let detail = kept_units(alloc, &text)?;
    Ok(Ending::Fault(Fault {
        code: FaultCode::Uncaught,
        place: thrown.place,
        detail,
    }))
}

/// The text of a value that was thrown. No script is run for it.
fn thrown_text(alloc: Global, heap: &Heap, value: &Value) -> Result<Text, Memory>
    ensures { IfOk result (λ text. text ≡ spec.thrown_text heap.now value.now) }
{
    match value {
        Value::Object(object) => object_text(alloc, heap, *object),
        Value::Undefined => to_text(alloc, value),
        Value::Null => to_text(alloc, value),
        Value::Bool(_) => to_text(alloc, value),
        Value::Number(_) => to_text(alloc, value),
        Value::Text(_) => to_text(alloc, value),
    }
}

fn object_text(alloc: Global, heap: &Heap, object: ObjectId) -> Result<Text, Memory>
    ensures { IfOk result (λ text. text ≡ spec.object_thrown heap.now object (kind_in (object_at heap.now object))) }
{
    match heap.kind(object) {
        Kind::Error => error_text(alloc, heap, object),
        kind => Text::from_latin_1(alloc, class_of(kind)),
    }
}

/// The name and the message of an error, as far as they are texts.
fn error_text(alloc: Global, heap: &Heap, error: ObjectId) -> Result<Text, Memory>
    ensures { IfOk result (λ text. text ≡ spec.object_thrown heap.now error kind.Error) }
{
    let name = text_under(alloc, heap, error, b"name")?;
    let message = text_under(alloc, heap, error, b"message")?;
    joined(alloc, &name, &message)
}

/// What an object has under a name, where that is a text; else the empty text.
fn text_under(alloc: Global, heap: &Heap, object: ObjectId, name: &[u8]) -> Result<Text, Memory>
    ensures { IfOk result (λ text. text ≡ spec.text_under (found_of heap.now object name.now)) }
{
    let name = Text::from_latin_1(alloc, name)?;
    match heap.get(alloc, object, &name)? {
        Found::Value(Value::Text(text)) => Ok(text),
        _ => Text::from_latin_1(alloc, b""),
    }
}
