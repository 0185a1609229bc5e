// Arrays of a heap, as rows write them.
use crate::{in_quotes, word};
use anyhow::{Context, Result, bail};
use case_rows::{Sample, text};
use heap_objects::array_index;
use heap_values::{BuiltIn, Found, Kind, ObjectId, Value};
use object_heap::Heap;
use std::alloc::Global;
use utf16_text::Text;
use whole_number::Whole;

/// A heap with the array of a row.
#[derive(Drop)]
pub(crate) struct Bench {
    pub(crate) heap: Heap,
    pub(crate) receiver: ObjectId,
}

impl Bench {
    /// A fresh heap with the array that a field writes.
    pub(crate) fn new(alloc: Global, field: &str) -> Result<Bench> {
        let mut heap = Heap::new(alloc)?;
        let receiver = make_array(alloc, &mut heap)?;
        let mut bench = Bench { heap, receiver };
        bench.fill(alloc, receiver, field)?;
        Ok(bench)
    }

    /// The values that some fields write. For a field in brackets an array is made.
    pub(crate) fn values(&mut self, alloc: Global, fields: &[&str]) -> Result<Vec<Value>> {
        let mut all = Vec::new(alloc);
        for field in fields {
            all.push(self.value(alloc, field)?)?;
        }
        Ok(all)
    }

    fn value(&mut self, alloc: Global, field: &str) -> Result<Value> {
        if !field.starts_with('[') {
            return self.plain_value(alloc, field);
        }
        let array = make_array(alloc, &mut self.heap)?;
        self.fill(alloc, array, field)?;
        Ok(Value::Object(array))
    }

    fn plain_value(&self, alloc: Global, field: &str) -> Result<Value> {
        if field == "receiver" {
            return Ok(Value::Object(self.receiver));
        }
        Ok(match Sample::read(alloc, field)? {
            Sample::Undefined => Value::Undefined,
            Sample::Null => Value::Null,
            Sample::Truth(truth) => Value::Bool(truth),
            Sample::Number(number) => Value::Number(number),
            Sample::Text(text) => Value::Text(text),
            Sample::Object(number) => Value::Object(ObjectId(number)),
        })
    }

    fn fill(&mut self, alloc: Global, array: ObjectId, field: &str) -> Result<()> {
        for element in in_brackets(field)?.split(", ") {
            self.add(alloc, array, element)?;
        }
        Ok(())
    }

    /// Adds an element, or holes, behind the last element.
    fn add(&mut self, alloc: Global, array: ObjectId, element: &str) -> Result<()> {
        let length = self.heap.length(array);
        let (name, value) = match holes_in(element)? {
            Some(holes) => (text(alloc, "length")?, number(length.saturating_add(holes))),
            None => (
                Whole::from(length).to_text(alloc)?,
                self.plain_value(alloc, element)?,
            ),
        };
        Ok(self.heap.put(alloc, array, &name, value)?)
    }

    /// A value as a field writes it, and of an array that isn't the receiver its elements.
    pub(crate) fn written(&self, alloc: Global, value: &Value) -> Result<String> {
        match value {
            Value::Object(id) if self.is_other_array(*id) => self.written_array(alloc, *id),
            _ => self.written_plain(alloc, value),
        }
    }

    fn is_other_array(&self, object: ObjectId) -> bool {
        object != self.receiver && self.heap.kind(object) == Kind::Array
    }

    fn written_plain(&self, alloc: Global, value: &Value) -> Result<String> {
        match value {
            Value::Undefined => word(alloc, "undefined"),
            Value::Null => word(alloc, "null"),
            Value::Bool(truth) => Ok(truth.to_string(alloc)?),
            Value::Number(number) => Ok(format!(in alloc; "{}", number.get())?),
            Value::Text(text) => in_quotes(alloc, text),
            Value::Object(id) if *id == self.receiver => word(alloc, "receiver"),
            Value::Object(id) => Ok(format!(in alloc; "object {}", id.0)?),
        }
    }

    /// The own elements of an array, with the holes between them and behind them.
    pub(crate) fn written_array(&self, alloc: Global, array: ObjectId) -> Result<String> {
        let mut list = word(alloc, "[")?;
        let mut behind: u32 = 0;
        let names = self.heap.own_keys(alloc, array)?;
        for name in names.as_slice() {
            let at = array_index(name).context("a name that is no place")?;
            append_holes(alloc, &mut list, at.saturating_sub(behind))?;
            let element = self.written_element(alloc, array, name)?;
            append(&mut list, element.as_str())?;
            behind = at.saturating_add(1);
        }
        let length = self.heap.length(array);
        append_holes(alloc, &mut list, length.saturating_sub(behind))?;
        list.push(']')?;
        Ok(list)
    }

    fn written_element(&self, alloc: Global, array: ObjectId, name: &Text) -> Result<String> {
        match self.heap.get_own(alloc, array, name)? {
            Found::Value(value) => self.written_plain(alloc, &value),
            _ => bail!("no value at a place"),
        }
    }
}

fn make_array(alloc: Global, heap: &mut Heap) -> Result<ObjectId> {
    let prototype = heap.built_in(BuiltIn::ArrayPrototype);
    Ok(heap.make(alloc, Kind::Array, Some(prototype))?)
}

fn number(count: u32) -> Value {
    Value::Number(Whole::from(count))
}

fn in_brackets(field: &str) -> Result<&str> {
    let behind = field.strip_prefix('[').context("an array in brackets")?;
    behind.strip_suffix(']').context("an array in brackets")
}

/// How many holes this is, where it is no element.
fn holes_in(element: &str) -> Result<Option<u32>> {
    match element {
        "" => Ok(Some(0)),
        "hole" => Ok(Some(1)),
        _ => match element.strip_suffix(" holes") {
            Some(count) => Ok(Some(count.parse::<u32>()?)),
            None => Ok(None),
        },
    }
}

fn append_holes(alloc: Global, list: &mut String, count: u32) -> Result<()> {
    match count {
        0 => Ok(()),
        1 => append(list, "hole"),
        _ => append(list, format!(in alloc; "{count} holes")?.as_str()),
    }
}

fn append(list: &mut String, item: &str) -> Result<()> {
    if list.len() > 1 {
        list.push_str(", ")?;
    }
    list.push_str(item)?;
    Ok(())
}
