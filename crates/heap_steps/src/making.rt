// Objects, scopes, properties and texts that are made.
ghost use Rattle.std.specs.Prelude.{Some, true, ◌≤◌, length, OnOk};
ghost use Rattle.std.specs.Fmt.{decimal};
ghost use Rattle.js_evaluation.specs.State as spec;
ghost use Rattle.heap_steps.specs.Works.{Tests, Works};
ghost use Rattle.utf16_text.specs.declared.limits.TheConstants.{LONGEST_TEXT};

use crate::{Halt, refused};
use heap_values::{BuiltIn, Kind, ObjectId, ScopeId, Value};
use js_evaluation::FaultCode;
use js_pattern_reader::PatternLiteral;
use js_tree::Place;
use object_heap::{Heap, Marks};
use std::alloc::Global;
use utf16_text::{LONGEST_TEXT, Text};

/// Makes an object.
pub fn make(
    alloc: Global,
    heap: &mut Heap,
    kind: Kind,
    prototype: ObjectId,
    place: Place,
) -> Result<ObjectId, Halt>
    ensures { Works (spec.make kind (Some prototype) place) heap.old result heap.new }
{
    match heap.make(alloc, kind, Some(prototype)) {
        Ok(object) => Ok(object),
        Err(answer) => Err(refused(answer, place)),
    }
}

/// Makes an object with a built-in prototype.
pub fn make_by(
    alloc: Global,
    heap: &mut Heap,
    kind: Kind,
    prototype: BuiltIn,
    place: Place,
) -> Result<ObjectId, Halt>
    ensures { Works (spec.make kind (Some (spec.built_in_object prototype)) place) heap.old result heap.new }
{
    let prototype = heap.built_in(prototype);
    make(alloc, heap, kind, prototype, place)
}

/// Makes the object of a pattern literal.
pub fn make_pattern(
    alloc: Global,
    heap: &mut Heap,
    literal: &PatternLiteral,
    place: Place,
) -> Result<ObjectId, Halt>
    ensures { Works (spec.make_pattern literal.now place) heap.old result heap.new }
{
    let prototype = heap.built_in(BuiltIn::PatternPrototype);
    match heap.make_pattern(alloc, literal, Some(prototype)) {
        Ok(object) => Ok(object),
        Err(answer) => Err(refused(answer, place)),
    }
}

/// Makes a scope of so many names, each undefined.
pub fn make_scope(
    alloc: Global,
    heap: &mut Heap,
    size: u32,
    around: ScopeId,
    place: Place,
) -> Result<ScopeId, Halt>
    ensures { Works (spec.make_scope size around place) heap.old result heap.new }
{
    match heap.make_scope(alloc, size, Some(around)) {
        Ok(scope) => Ok(scope),
        Err(answer) => Err(refused(answer, place)),
    }
}

/// A property with these marks, in place of one of that name.
pub fn define(
    alloc: Global,
    heap: &mut Heap,
    object: ObjectId,
    name: &Text,
    value: Value,
    marks: Marks,
    place: Place,
) -> Result<(), Halt>
    ensures { Works (spec.define object name.now value marks.listed marks.deletable place) heap.old result heap.new }
{
    match heap.define(alloc, object, name, value, marks.listed, marks.deletable) {
        Ok(()) => Ok(()),
        Err(answer) => Err(refused(answer, place)),
    }
}

/// The same of a property whose name is given as bytes, one a unit.
pub fn define_as(
    alloc: Global,
    heap: &mut Heap,
    object: ObjectId,
    name: &[u8],
    value: Value,
    marks: Marks,
    place: Place,
) -> Result<(), Halt>
    ensures { Works (spec.define object name.now value marks.listed marks.deletable place) heap.old result heap.new }
{
    let name = Text::from_latin_1(alloc, name)?;
    define(alloc, heap, object, &name, value, marks, place)
}

/// An element, listed and deletable, in place of one of that index.
pub fn define_at(
    alloc: Global,
    heap: &mut Heap,
    object: ObjectId,
    index: u32,
    value: Value,
    place: Place,
) -> Result<(), Halt>
    ensures { Works (spec.define object (decimal index) value true true place) heap.old result heap.new }
{
    match heap.define_index(alloc, object, index, value) {
        Ok(()) => Ok(()),
        Err(answer) => Err(refused(answer, place)),
    }
}

/// Counts the units of a text that is made.
pub fn spend(heap: &mut Heap, text: &Text, place: Place) -> Result<(), Halt>
    ensures { Works (spec.spend text.now place) heap.old result heap.new }
{
    match heap.spend_text(text.len()) {
        Ok(()) => Ok(()),
        Err(answer) => Err(refused(answer, place)),
    }
}

/// A text that becomes a value and isn't counted must be short enough.
pub fn test_text(text: &Text, place: Place) -> Result<(), Halt>
    ensures tests { Tests (spec.test_text text.now place) result }
    ensures short { OnOk result (length text.now ≤ LONGEST_TEXT) }
{
    if text.len() > LONGEST_TEXT {
        return Err(Halt::Fault {
            code: FaultCode::StringTooLong,
            place,
        });
    }
    Ok(())
}
