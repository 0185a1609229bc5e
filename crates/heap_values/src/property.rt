// A property of an object.
use crate::Value;
use std::alloc::Global;
use utf16_text::{Memory, Text};

/// What stands under a property's name.
#[derive(Drop)]
pub enum Content {
    Value(Value),
    /// The mark of a built-in that this profile leaves out, with the text by which a fault names it.
    LeftOut(Text),
}

/// A property without its name (ECMA-262 5.1, section 8.6.1).
#[derive(Drop)]
pub struct Property {
    pub content: Content,
    /// Whether `for`-`in` lists it.
    pub listed: bool,
    /// Whether `delete` takes it away.
    pub deletable: bool,
}

impl Content {
    ghost use Rattle.std.specs.Prelude.{◌≡◌, IfOk};

    /// The same content. A text shares its units with the copy.
    pub fn copy(&self, alloc: Global) -> Result<Content, Memory>
        ensures { IfOk result (λ content. content ≡ self.now) }
    {
        match self {
            Content::Value(value) => Ok(Content::Value(value.copy(alloc)?)),
            Content::LeftOut(text) => Ok(Content::LeftOut(text.copy(alloc)?)),
        }
    }
}

impl Property {
    ghost use Rattle.std.specs.Prelude.{◌≡◌, IfOk};

    /// The same property. A text shares its units with the copy.
    pub fn copy(&self, alloc: Global) -> Result<Property, Memory>
        ensures { IfOk result (λ property. property ≡ self.now) }
    {
        let content = self.content.copy(alloc)?;
        Ok(Property {
            content,
            listed: self.listed,
            deletable: self.deletable,
        })
    }
}
