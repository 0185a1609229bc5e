// Values, properties and what is found, as rows write them.
use anyhow::{Result, bail};
use case_rows::{Sample, text, written_text};
use heap_values::{Content, Found, ObjectId, Property, Value};
use js_convert::to_text;
use std::alloc::Global;
use std::fmt::Debug;
use utf16_text::Text;

pub(crate) fn value_in(alloc: Global, field: &str) -> Result<Value> {
    Ok(match Sample::read(alloc, field)? {
        Sample::Undefined => Value::Undefined,
        Sample::Null => Value::Null,
        Sample::Truth(truth) => Value::Bool(truth),
        Sample::Number(number) => Value::Number(number),
        Sample::Text(text) => Value::Text(text),
        Sample::Object(number) => Value::Object(ObjectId(number)),
    })
}

pub(crate) fn values_in(alloc: Global, fields: &[&str]) -> Result<Vec<Value>> {
    let mut values = Vec::new(alloc);
    for field in fields {
        values.push(value_in(alloc, field)?)?;
    }
    Ok(values)
}

pub(crate) fn written(alloc: Global, value: &Value) -> Result<String> {
    match value {
        Value::Object(id) => Ok(format!(in alloc; "object {}", id.0)?),
        Value::Text(text) => behind(alloc, "'", text, "'"),
        _ => written_text(alloc, &to_text(alloc, value)?),
    }
}

fn behind(alloc: Global, front: &str, text: &Text, back: &str) -> Result<String> {
    let text = written_text(alloc, text)?;
    Ok(format!(in alloc; "{front}{}{back}", text.as_str())?)
}

pub(crate) fn written_found(alloc: Global, found: &Found) -> Result<String> {
    match found {
        Found::Absent => Ok(String::from_str(alloc, "absent")?),
        Found::LeftOut(name) => behind(alloc, "left out ", name, ""),
        Found::Value(value) => written(alloc, value),
    }
}

pub(crate) fn refused(alloc: Global, answer: &impl Debug) -> Result<String> {
    Ok(format!(in alloc; "refused {answer:?}")?)
}

/// A property with a mark, copied.
pub(crate) fn copied_property(alloc: Global, fields: &[&str]) -> Result<String> {
    let [name, listed, deletable] = fields else {
        bail!("a name, and whether it is listed and deletable");
    };
    let property = Property {
        content: Content::LeftOut(text(alloc, name)?),
        listed: *listed == "true",
        deletable: *deletable == "true",
    };
    written_property(alloc, &property.copy(alloc)?)
}

fn written_property(alloc: Global, property: &Property) -> Result<String> {
    let (listed, deletable) = (property.listed, property.deletable);
    let Content::LeftOut(name) = &property.content else {
        bail!("no mark");
    };
    let name = written_text(alloc, name)?;
    Ok(format!(in alloc; "left out {}, {listed}, {deletable}", name.as_str())?)
}
