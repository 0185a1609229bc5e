// Values as texts.
ghost use Rattle.std.specs.Prelude.{◌≡◌, IfOk};
ghost use Rattle.js_convert.specs.Texts.{text_of};

use heap_values::Value;
use std::alloc::Global;
use utf16_text::{Memory, Text};

/// The text of a primitive value (ECMA-262 5.1, section 9.8). That of an object is empty.
pub fn to_text(alloc: Global, value: &Value) -> Result<Text, Memory>
    ensures { IfOk result (λ t. t ≡ text_of value.now) }
{
    match value {
        Value::Undefined => Text::from_latin_1(alloc, b"undefined"),
        Value::Null => Text::from_latin_1(alloc, b"null"),
        Value::Bool(true) => Text::from_latin_1(alloc, b"true"),
        Value::Bool(false) => Text::from_latin_1(alloc, b"false"),
        Value::Number(number) => number.to_text(alloc),
        Value::Text(text) => text.copy(alloc),
        Value::Object(_) => Text::from_latin_1(alloc, b""),
    }
}
