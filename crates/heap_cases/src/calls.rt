// Calls of a heap, one after another.
use crate::values::{refused, value_in, written, written_found};
use anyhow::{Result, bail};
use case_rows::{text, written_text};
use js_pattern_reader::PatternLiteral;
use object_heap::{Found, Heap, HeapAnswer, Kind, Marks, ObjectId, ScopeId, Value};
use std::alloc::Global;
use std::mem::swap;
use utf16_text::{Text, TextList};

/// A call: its name, and behind it an object, a scope or a count by its number, a property, an index or a slot by its
/// name or its number, and a value.
#[derive(Drop)]
struct Call {
    name: String,
    number: u32,
    property: Text,
    slot: u32,
    value: Value,
}

/// What a call tells.
#[derive(Drop)]
enum Answer {
    Nothing,
    Unknown,
    None,
    Truth(bool),
    Count(u64),
    Names(TextList),
    Found(Found),
    Marks(Marks),
    Value(Value),
}

/// A heap and copies that calls made, with the objects and scopes that they made, which name them by their places here.
#[derive(Drop)]
struct Bench {
    heap: Heap,
    others: Vec<Heap>,
    objects: Vec<ObjectId>,
    scopes: Vec<ScopeId>,
}

/// What calls of a fresh heap tell.
pub(crate) fn told(alloc: Global, calls: &[&str]) -> Result<String> {
    let mut bench = Bench {
        heap: Heap::new(alloc)?,
        others: Vec::new(alloc),
        objects: Vec::new(alloc),
        scopes: Vec::new(alloc),
    };
    let mut told = String::new(alloc);
    for call in calls {
        let answer = bench.call(alloc, &call_in(alloc, call)?);
        append(alloc, &mut told, answer)?;
    }
    Ok(told)
}

fn call_in(alloc: Global, field: &str) -> Result<Call> {
    let words: Vec<&str> = field.split(' ').collect(alloc)?;
    let property = word_at(&words, 2, "0");
    Ok(Call {
        name: String::from_str(alloc, word_at(&words, 0, ""))?,
        number: word_at(&words, 1, "0").parse::<u32>()?,
        property: text(alloc, property)?,
        slot: property.parse::<u32>().unwrap_or(0),
        value: value_in(alloc, word_at(&words, 3, "undefined"))?,
    })
}

fn word_at<'a>(words: &[&'a str], at: usize, missing: &'a str) -> &'a str {
    words.get(at).copied().unwrap_or(missing)
}

fn append(alloc: Global, told: &mut String, answer: Result<Answer, HeapAnswer>) -> Result<()> {
    let told_now = match answer {
        Ok(Answer::Nothing) => return Ok(()),
        Ok(answer) => written_answer(alloc, &answer)?,
        Err(answer) => refused(alloc, &answer)?,
    };
    if !told.is_empty() {
        told.push_str(", ")?;
    }
    told.push_str(told_now.as_str())?;
    Ok(())
}

fn written_answer(alloc: Global, answer: &Answer) -> Result<String> {
    match answer {
        Answer::Nothing => Ok(String::new(alloc)),
        Answer::Unknown => bail!("no such call"),
        Answer::None => Ok(String::from_str(alloc, "none")?),
        Answer::Truth(truth) => Ok(truth.to_string(alloc)?),
        Answer::Count(count) => Ok(count.to_string(alloc)?),
        Answer::Names(names) => joined(alloc, names),
        Answer::Found(found) => written_found(alloc, found),
        Answer::Marks(marks) => Ok(format!(in alloc; "{} {}", marks.listed, marks.deletable)?),
        Answer::Value(value) => written(alloc, value),
    }
}

/// The names, parted by blanks.
fn joined(alloc: Global, names: &TextList) -> Result<String> {
    let mut all = String::new(alloc);
    for name in names.as_slice() {
        if !all.is_empty() {
            all.push(' ')?;
        }
        all.push_str(written_text(alloc, name)?.as_str())?;
    }
    Ok(all)
}

impl Bench {
    // An object that isn't there reads as one without properties.
    fn object(&self, number: u32) -> ObjectId {
        match self.objects.get(number as usize) {
            Some(object) => *object,
            None => ObjectId(u32::MAX),
        }
    }

    fn scope(&self, number: u32) -> ScopeId {
        match self.scopes.get(number as usize) {
            Some(scope) => *scope,
            None => ScopeId(u32::MAX),
        }
    }

    fn call(&mut self, alloc: Global, call: &Call) -> Result<Answer, HeapAnswer> {
        match call.name.as_str() {
            "object" => self.make(alloc, Kind::Plain, None),
            "array" => self.make(alloc, Kind::Array, None),
            "heir" => {
                let behind = self.object(call.number);
                self.make(alloc, Kind::Plain, Some(behind))
            }
            "pattern" => self.make_pattern(alloc, call),
            "scope" => self.make_scope(alloc, call.number, None),
            "inner-scope" => {
                let outer = self.heap.outer();
                self.make_scope(alloc, call.number, Some(outer))
            }
            "cells" => Ok(Answer::Count(self.heap.cells())),
            "spend" => self.spend(call),
            "share" | "copy" | "swap" => self.pass(alloc, call),
            "put" | "put-index" | "define" | "define-index" | "write" => self.write(alloc, call),
            _ => self.ask(alloc, call),
        }
    }

    /// Makes the heap a shared one, puts a copy of it aside, or takes the one that stands aside in its stead.
    fn pass(&mut self, alloc: Global, call: &Call) -> Result<Answer, HeapAnswer> {
        let copy = self.heap.copy(alloc)?;
        match call.name.as_str() {
            "share" => self.heap = copy.into_shared(alloc)?,
            "copy" => match self.others.push(copy) {
                Ok(()) => {}
                Err(_) => return Err(HeapAnswer::Memory),
            },
            _ => {
                if let Some(other) = self.others.get_mut(call.number as usize) {
                    swap(&mut self.heap, other);
                }
            }
        }
        Ok(Answer::Nothing)
    }

    fn make(
        &mut self,
        alloc: Global,
        kind: Kind,
        prototype: Option<ObjectId>,
    ) -> Result<Answer, HeapAnswer> {
        let object = self.heap.make(alloc, kind, prototype)?;
        self.keep(object)
    }

    /// Makes the object of a pattern literal; the property is its body, and the value its flags.
    fn make_pattern(&mut self, alloc: Global, call: &Call) -> Result<Answer, HeapAnswer> {
        let flags = match &call.value {
            Value::Text(flags) => flags.copy(alloc)?,
            _ => Text::from_units(alloc, &[])?,
        };
        let body = call.property.copy(alloc)?;
        match PatternLiteral::read(alloc, body, flags) {
            Ok(literal) => {
                let object = self.heap.make_pattern(alloc, &literal, None)?;
                self.keep(object)
            }
            Err(_) => Ok(Answer::Unknown),
        }
    }

    fn keep(&mut self, object: ObjectId) -> Result<Answer, HeapAnswer> {
        match self.objects.push(object) {
            Ok(()) => Ok(Answer::Nothing),
            Err(_) => Err(HeapAnswer::Memory),
        }
    }

    fn make_scope(
        &mut self,
        alloc: Global,
        size: u32,
        parent: Option<ScopeId>,
    ) -> Result<Answer, HeapAnswer> {
        let scope = self.heap.make_scope(alloc, size, parent)?;
        match self.scopes.push(scope) {
            Ok(()) => Ok(Answer::Nothing),
            Err(_) => Err(HeapAnswer::Memory),
        }
    }

    fn spend(&mut self, call: &Call) -> Result<Answer, HeapAnswer> {
        for _text in 0..call.slot {
            self.heap.spend_text(call.number as usize)?;
        }
        Ok(Answer::Nothing)
    }

    fn write(&mut self, alloc: Global, call: &Call) -> Result<Answer, HeapAnswer> {
        let object = self.object(call.number);
        let scope = self.scope(call.number);
        let value = call.value.copy(alloc)?;
        match call.name.as_str() {
            "put" => self.heap.put(alloc, object, &call.property, value)?,
            "put-index" => self.heap.put_index(alloc, object, call.slot, value)?,
            "define-index" => self.heap.define_index(alloc, object, call.slot, value)?,
            "write" => self.heap.write_slot(alloc, scope, call.slot, value)?,
            _ => self
                .heap
                .define(alloc, object, &call.property, value, false, false)?,
        }
        Ok(Answer::Nothing)
    }

    fn ask(&mut self, alloc: Global, call: &Call) -> Result<Answer, HeapAnswer> {
        let object = self.object(call.number);
        let name = &call.property;
        Ok(match call.name.as_str() {
            "delete" => Answer::Truth(self.heap.delete(alloc, object, name)?),
            "get" => Answer::Found(self.heap.get(alloc, object, name)?),
            "get-index" => Answer::Found(self.heap.get_index(alloc, object, call.slot)?),
            "own" => Answer::Found(self.heap.get_own(alloc, object, name)?),
            "marks" => self.marks(object, name),
            "keys" => Answer::Names(self.heap.keys(alloc, object)?),
            "own-keys" => Answer::Names(self.heap.own_keys(alloc, object)?),
            "length" => Answer::Count(u64::from(self.heap.length(object))),
            "prototype" => {
                let behind = self.heap.prototype(object);
                self.place(behind)
            }
            "read" => {
                let scope = self.scope(call.number);
                Answer::Value(self.heap.read_slot(alloc, scope, call.slot)?)
            }
            "outer-parent" => self.outer_parent(),
            "literal" => self.literal(alloc, object)?,
            _ => Answer::Unknown,
        })
    }

    fn marks(&self, object: ObjectId, name: &Text) -> Answer {
        match self.heap.own_marks(object, name) {
            Some(marks) => Answer::Marks(marks),
            None => Answer::None,
        }
    }

    /// The place of an object among those that were made.
    fn place(&self, object: Option<ObjectId>) -> Answer {
        match self.objects.iter().position(|made| Some(*made) == object) {
            Some(place) => Answer::Count(place as u64),
            None => Answer::None,
        }
    }

    /// The body and the flags of a pattern.
    fn literal(&self, alloc: Global, object: ObjectId) -> Result<Answer, HeapAnswer> {
        let Some(literal) = self.heap.literal(object) else {
            return Ok(Answer::None);
        };
        let mut parts = TextList::new(alloc);
        parts.push(alloc, literal.body().copy(alloc)?)?;
        parts.push(alloc, literal.flags().copy(alloc)?)?;
        Ok(Answer::Names(parts))
    }

    fn outer_parent(&self) -> Answer {
        match self.heap.parent(self.heap.outer()) {
            Some(scope) => Answer::Count(u64::from(scope.0)),
            None => Answer::None,
        }
    }
}
