// Names in scopes (ECMA-262 5.1, sections 10.2.1, 10.2.2.1, 11.4.1 and 11.4.3).
ghost use Rattle.std.specs.Prelude.{◌≡◌};
ghost use Rattle.heap_values.specs.declared.value.Value.{Value};
ghost use Rattle.object_heap.specs.Heap.{parent_in, scope_at};
ghost use Rattle.js_evaluation.specs.BySlots as spec;
ghost use Rattle.heap_steps.specs.Works.{Works, global_read, unknown};

use crate::Halt;
use crate::errors::throw_error;
use crate::properties::found_value;
use crate::writing::{delete_property, put_on};
use heap_values::{BuiltIn, Found, ScopeId, Value};
use js_tree::{Bound, BoundName, Place};
use object_heap::Heap;
use std::alloc::Global;
use utf16_text::Text;

/// The scope around this one; this one where there is none.
fn around(heap: &Heap, scope: ScopeId) -> ScopeId
    ensures { result ≡ spec.around_or (parent_in (scope_at heap.now scope)) scope }
{
    match heap.parent(scope) {
        None => scope,
        Some(around) => around,
    }
}

/// The scope so many scopes outward.
fn scope_out(heap: &Heap, up: u32, scope: ScopeId) -> ScopeId
    ensures { result ≡ spec.scope_out heap.now up scope }
{
    let mut scope = scope;
    let mut left = up;
    while left > 0 {
        scope = around(heap, scope);
        left -= 1;
    }
    scope
}

/// The value of a name, for code in this scope.
pub fn read_name(
    alloc: Global,
    heap: &mut Heap,
    scope: ScopeId,
    name: &BoundName,
    place: Place,
) -> Result<Value, Halt>
    ensures { (this : Value) → Works (spec.read_name (record { scope = scope; this = this }) name.now place) heap.old result heap.new }
{
    match name.bound {
        Bound::Slot { up, slot } => {
            let holder = scope_out(heap, up, scope);
            Ok(heap.read_slot(alloc, holder, slot)?)
        }
        Bound::Own { up } => {
            let holder = scope_out(heap, up, scope);
            Ok(heap.read_slot(alloc, holder, 0)?)
        }
        Bound::Global => read_global(alloc, heap, &name.name, place),
        Bound::Unbound => Ok(Value::Undefined),
    }
}

/// What a global name stands for: a property of the global object, or nothing.
fn read_global(alloc: Global, heap: &mut Heap, name: &Text, place: Place) -> Result<Value, Halt>
    ensures { Works (global_read name.now place) heap.old result heap.new }
{
    let global = heap.built_in(BuiltIn::Global);
    match heap.get(alloc, global, name)? {
        Found::Value(value) => Ok(value),
        Found::Absent => throw_unknown(alloc, heap, name, place),
        Found::LeftOut(name) => Err(Halt::LeftOut { name, place }),
    }
}

/// Throws a ReferenceError for a name that stands for nothing.
fn throw_unknown(alloc: Global, heap: &mut Heap, name: &Text, place: Place) -> Result<Value, Halt>
    ensures { Works (unknown name.now place) heap.old result heap.new }
{
    let behind = Text::from_latin_1(alloc, b" is not defined")?;
    let message = name.concat(alloc, &behind)?;
    throw_error(
        alloc,
        heap,
        BuiltIn::ReferenceErrorPrototype,
        message,
        place,
    )
}

/// The value of a name of which `typeof` asks: one that stands for nothing is undefined.
pub fn read_or_undefined(
    alloc: Global,
    heap: &mut Heap,
    scope: ScopeId,
    name: &BoundName,
    place: Place,
) -> Result<Value, Halt>
    ensures { (this : Value) → Works (spec.read_or_undefined (record { scope = scope; this = this }) name.now place) heap.old result heap.new }
{
    match name.bound {
        Bound::Global => {
            let global = heap.built_in(BuiltIn::Global);
            let found = heap.get(alloc, global, &name.name)?;
            found_value(Value::Undefined, found, place)
        }
        _ => read_name(alloc, heap, scope, name, place),
    }
}

/// Writes a name: one that stands for nothing becomes a global property; the own name of a function keeps its value.
pub fn write_name(
    alloc: Global,
    heap: &mut Heap,
    scope: ScopeId,
    name: &BoundName,
    value: Value,
    place: Place,
) -> Result<(), Halt>
    ensures { (this : Value) → Works (spec.write_name (record { scope = scope; this = this }) name.now value place) heap.old result heap.new }
{
    match name.bound {
        Bound::Slot { up, slot } => {
            let holder = scope_out(heap, up, scope);
            heap.write_slot(alloc, holder, slot, value)?;
            Ok(())
        }
        Bound::Own { .. } => Ok(()),
        Bound::Global => {
            let global = heap.built_in(BuiltIn::Global);
            put_on(alloc, heap, global, &name.name, value, place)
        }
        Bound::Unbound => Ok(()),
    }
}

/// `delete` of a name: names of scopes stay.
pub fn delete_name(
    alloc: Global,
    heap: &mut Heap,
    name: &BoundName,
    place: Place,
) -> Result<Value, Halt>
    ensures { Works (spec.delete_bound name.now.name name.now.bound place) heap.old result heap.new }
{
    match name.bound {
        Bound::Global => {
            let global = Value::Object(heap.built_in(BuiltIn::Global));
            delete_property(alloc, heap, &global, &name.name, place)
        }
        Bound::Slot { .. } => Ok(Value::Bool(false)),
        Bound::Own { .. } => Ok(Value::Bool(false)),
        Bound::Unbound => Ok(Value::Bool(false)),
    }
}
