// Functions as objects (ECMA-262 5.1, sections 9.11 and 13.2).
ghost use Rattle.std.specs.Prelude.{◌≡◌};
ghost use Rattle.js_evaluation.specs.Objects as spec;
ghost use Rattle.heap_steps.specs.Works.{Works, called_if, called_object};

use crate::Halt;
use crate::making::{define_as, make_by};
use heap_values::{BuiltIn, Kind, ObjectId, ScopeId, Value};
use js_tree::Place;
use object_heap::{Heap, Marks};
use std::alloc::Global;
use whole_number::Whole;

/// The marks of what a function has from its beginning.
const FIXED: Marks = Marks {
    listed: false,
    deletable: false,
};

/// The marks of the constructor of a prototype.
const CONSTRUCTOR: Marks = Marks {
    listed: false,
    deletable: true,
};

/// Makes a function object with its length, and with a prototype for what it constructs.
pub fn closure(
    alloc: Global,
    heap: &mut Heap,
    number: u32,
    arity: u32,
    scope: ScopeId,
    place: Place,
) -> Result<Value, Halt>
    ensures { Works (spec.closure number arity scope place) heap.old result heap.new }
{
    let kind = Kind::Function(number, scope);
    let function = make_by(alloc, heap, kind, BuiltIn::FunctionPrototype, place)?;
    let length = Value::Number(Whole::from(arity));
    define_as(alloc, heap, function, b"length", length, FIXED, place)?;
    let prototype = make_by(alloc, heap, Kind::Plain, BuiltIn::ObjectPrototype, place)?;
    let made_by = Value::Object(function);
    define_as(
        alloc,
        heap,
        prototype,
        b"constructor",
        made_by,
        CONSTRUCTOR,
        place,
    )?;
    let prototype = Value::Object(prototype);
    define_as(alloc, heap, function, b"prototype", prototype, FIXED, place)?;
    Ok(Value::Object(function))
}

/// The object that a value is, where it can be called (ECMA-262 5.1, section 9.11).
pub fn callable(heap: &Heap, value: &Value) -> Option<ObjectId>
    ensures { result ≡ called_object heap.now value.now }
{
    match value {
        Value::Undefined => None,
        Value::Null => None,
        Value::Bool(_) => None,
        Value::Number(_) => None,
        Value::Text(_) => None,
        Value::Object(object) => called_if(heap.kind(*object), *object),
    }
}

fn called_if(kind: Kind, object: ObjectId) -> Option<ObjectId>
    ensures { result ≡ called_if (spec.is_callable_kind kind) object }
{
    match kind {
        Kind::Plain => None,
        Kind::Array => None,
        Kind::Function(_, _) => Some(object),
        Kind::Native(_) => Some(object),
        Kind::Error => None,
        Kind::Pattern(_) => None,
    }
}
