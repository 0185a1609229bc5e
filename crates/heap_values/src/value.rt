// A value of a script.
use crate::ObjectId;
use std::alloc::{AllocError, Global};
use utf16_text::{Memory, Text};
use whole_number::Whole;

/// A value of a script (ECMA-262 5.1, section 8). A number is whole.
#[derive(Drop)]
pub enum Value {
    Undefined,
    Null,
    Bool(bool),
    Number(Whole),
    Text(Text),
    Object(ObjectId),
}

impl Value {
    ghost use Rattle.std.specs.Prelude.{◌≡◌, IfOk};

    /// The same value. A text shares its units with the copy.
    pub fn copy(&self, alloc: Global) -> Result<Value, Memory>
        ensures { IfOk result (λ v. v ≡ self.now) }
    {
        match self {
            Value::Undefined => Ok(Value::Undefined),
            Value::Null => Ok(Value::Null),
            Value::Bool(truth) => Ok(Value::Bool(*truth)),
            Value::Number(number) => Ok(Value::Number(*number)),
            Value::Text(text) => Ok(Value::Text(text.copy(alloc)?)),
            Value::Object(id) => Ok(Value::Object(*id)),
        }
    }
}

impl Clone for Value {
    ghost use Rattle.std.specs.Prelude.{◌≡◌};

    ghost is_clone = { λ v copy. copy ≡ v };

    fn clone(&self) -> Result<Value, AllocError> {
        match self {
            Value::Undefined => Ok(Value::Undefined),
            Value::Null => Ok(Value::Null),
            Value::Bool(truth) => Ok(Value::Bool(*truth)),
            Value::Number(number) => Ok(Value::Number(*number)),
            Value::Text(text) => Ok(Value::Text(text.clone()?)),
            Value::Object(id) => Ok(Value::Object(*id)),
        }
    }
}
