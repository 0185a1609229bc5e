// The objects of patterns.
ghost use Rattle.std.specs.Prelude.{◌≡◌, IfOk, OnOk, false};
ghost use Rattle.heap_objects.specs.Object.{is_length};
ghost use Rattle.object_heap.specs.Heap.{pattern_object, with_hidden};
ghost use Rattle.object_heap.specs.PatternNames.{pattern_names};

use heap_objects::Object;
use heap_values::{Content, Kind, ObjectId, Property, Value};
use js_pattern_reader::PatternLiteral;
use std::alloc::Global;
use utf16_text::{Memory, Text};

/// How many properties an object has for a pattern: these, and `lastIndex`.
const ROOM: usize = 5;

/// The names under which each pattern says what its literal is. All patterns share them.
#[derive(Drop)]
pub(crate) struct PatternNames {
    source: Text,
    global: Text,
    ignore_case: Text,
    multiline: Text,
}

impl PatternNames {
    pub(crate) fn new(alloc: Global) -> Result<PatternNames, Memory>
        ensures { IfOk result (λ names. names ≡ pattern_names) }
    {
        Ok(PatternNames {
            source: Text::from_latin_1(alloc, b"source")?,
            global: Text::from_latin_1(alloc, b"global")?,
            ignore_case: Text::from_latin_1(alloc, b"ignoreCase")?,
            multiline: Text::from_latin_1(alloc, b"multiline")?,
        })
    }

    pub(crate) fn copy(&self, alloc: Global) -> Result<PatternNames, Memory>
        ensures { IfOk result (λ names. names ≡ self.now) }
    {
        Ok(PatternNames {
            source: self.source.copy(alloc)?,
            global: self.global.copy(alloc)?,
            ignore_case: self.ignore_case.copy(alloc)?,
            multiline: self.multiline.copy(alloc)?,
        })
    }

    /// The object of the pattern of this number, with what it says of its literal.
    pub(crate) fn object(
        &self,
        alloc: Global,
        number: u32,
        literal: &PatternLiteral,
        prototype: Option<ObjectId>,
    ) -> Result<Object, Memory>
        requires { self.now ≡ pattern_names }
        ensures { IfOk result (λ object. object ≡ pattern_object number literal.now prototype) }
    {
        let mut object = Object::with_room(alloc, Kind::Pattern(number), prototype, ROOM)?;
        let source = Value::Text(literal.body().copy(alloc)?);
        define_hidden(alloc, &mut object, &self.source, source)?;
        let global = Value::Bool(literal.is_global());
        define_hidden(alloc, &mut object, &self.global, global)?;
        let ignores_case = Value::Bool(literal.ignores_case());
        define_hidden(alloc, &mut object, &self.ignore_case, ignores_case)?;
        let is_multiline = Value::Bool(literal.is_multiline());
        define_hidden(alloc, &mut object, &self.multiline, is_multiline)?;
        Ok(object)
    }
}

/// Gives an object a property that is neither listed nor deletable, under a name that is not the length of an array.
fn define_hidden(
    alloc: Global,
    object: &mut Object,
    name: &Text,
    value: Value,
) -> Result<(), Memory>
    requires { is_length object.old.kind name.now ≡ false }
    ensures { OnOk result (object.new ≡ with_hidden name.now value object.old) }
{
    let property = Property {
        content: Content::Value(value),
        listed: false,
        deletable: false,
    };
    object.define(alloc, name, property)
}
