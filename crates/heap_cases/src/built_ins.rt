// The built-in objects of a fresh heap.
use crate::values::written_found;
use anyhow::{Context, Result, bail};
use case_rows::text;
use object_heap::{BuiltIn, Found, Heap, Kind, ObjectId, Value};
use std::alloc::Global;

const BUILT_INS: [BuiltIn; 12] = [
    BuiltIn::Global,
    BuiltIn::ObjectPrototype,
    BuiltIn::FunctionPrototype,
    BuiltIn::ArrayPrototype,
    BuiltIn::TextPrototype,
    BuiltIn::NumberPrototype,
    BuiltIn::BooleanPrototype,
    BuiltIn::ErrorPrototype,
    BuiltIn::TypeErrorPrototype,
    BuiltIn::RangeErrorPrototype,
    BuiltIn::ReferenceErrorPrototype,
    BuiltIn::PatternPrototype,
];

fn built_in_named(alloc: Global, name: &str) -> Result<BuiltIn> {
    for which in BUILT_INS {
        if format!(in alloc; "{which:?}")?.as_str() == name {
            return Ok(which);
        }
    }
    bail!("no built-in object {name}")
}

fn written_built_in(alloc: Global, heap: &Heap, object: Option<ObjectId>) -> Result<String> {
    for which in BUILT_INS {
        if object == Some(heap.built_in(which)) {
            return Ok(format!(in alloc; "{which:?}")?);
        }
    }
    let none = if object.is_none() { "none" } else { "another" };
    Ok(String::from_str(alloc, none)?)
}

fn object_under(
    alloc: Global,
    heap: &Heap,
    object: ObjectId,
    name: &str,
) -> Result<Option<ObjectId>> {
    match heap.get_own(alloc, object, &text(alloc, name)?)? {
        Found::Value(Value::Object(id)) => Ok(Some(id)),
        _ => Ok(None),
    }
}

/// The object whose own `prototype` is this one (15.2.3.1 and its like).
fn constructor_of(alloc: Global, heap: &Heap, prototype: ObjectId) -> Result<ObjectId> {
    for number in 0..100 {
        if object_under(alloc, heap, ObjectId(number), "prototype")? == Some(prototype) {
            return Ok(ObjectId(number));
        }
    }
    bail!("no constructor")
}

/// `Math`, a built-in object by its name, or the constructor whose `prototype` is that one.
fn object_named(alloc: Global, heap: &Heap, name: &str) -> Result<ObjectId> {
    if name == "Math" {
        let global = heap.built_in(BuiltIn::Global);
        return object_under(alloc, heap, global, name)?.context("no Math");
    }
    match name.strip_prefix("constructor of ") {
        Some(name) => { constructor_of(alloc, heap, heap.built_in(built_in_named(alloc, name)?)) }
        None => Ok(heap.built_in(built_in_named(alloc, name)?)),
    }
}

/// What a built-in object is, its prototype, and how many of its names are listed.
pub(crate) fn object(alloc: Global, fields: &[&str]) -> Result<String> {
    let [name] = fields else {
        bail!("an object");
    };
    let heap = Heap::new(alloc)?;
    let object = object_named(alloc, &heap, name)?;
    let kind = match heap.kind(object) {
        Kind::Plain => "Plain",
        Kind::Array => "Array",
        Kind::Error => "Error",
        Kind::Native(_) => "Native",
        Kind::Function(..) => "Function",
        Kind::Pattern(_) => "Pattern",
    };
    let prototype = written_built_in(alloc, &heap, heap.prototype(object))?;
    let listed = heap.own_keys(alloc, object)?.len();
    Ok(format!(in alloc; "{kind}, prototype {}, {listed} listed", prototype.as_str())?)
}

/// What a built-in object has under a name, and whether it can be deleted.
pub(crate) fn name(alloc: Global, fields: &[&str]) -> Result<String> {
    let [object, name] = fields else {
        bail!("an object and a name");
    };
    let mut heap = Heap::new(alloc)?;
    let object = object_named(alloc, &heap, object)?;
    let name = text(alloc, name)?;
    let found = written_own(alloc, &heap.get_own(alloc, object, &name)?)?;
    let mark = if heap.delete(alloc, object, &name)? {
        "deletable"
    } else {
        "fixed"
    };
    Ok(format!(in alloc; "{}, {mark}", found.as_str())?)
}

fn written_own(alloc: Global, found: &Found) -> Result<String> {
    match found {
        Found::Value(Value::Object(_)) => Ok(String::from_str(alloc, "an object")?),
        _ => written_found(alloc, found),
    }
}
