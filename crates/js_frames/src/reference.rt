// What an expression refers to.
ghost use Rattle.std.specs.Prelude.{◌≡◌};
ghost use Rattle.js_evaluation.specs.Expressions.{no_reference};
ghost use Rattle.js_frames.specs.Parts.{reference_of};

use heap_values::Value;
use js_tree::{BoundName, Place};

/// What a value can be read from and written to (ECMA-262 5.1, section 8.7), with its place.
#[derive(Drop)]
pub enum Reference<'p> {
    Name {
        place: Place,
        name: &'p BoundName,
    },
    /// A property of a base; its name is the text of the key, a primitive value.
    Property {
        place: Place,
        base: Value,
        key: Value,
    },
}

/// The place of what arises outside every node.
pub const OUTSIDE: Place = Place { line: 0, column: 0 };

impl<'p> Reference<'p> {
    /// What refers to nothing. Names and properties alone are asked for what they refer to, so it comes up in no run.
    pub fn none() -> Reference<'p>
        ensures { reference_of result ≡ no_reference }
    {
        Reference::Property {
            place: OUTSIDE,
            base: Value::Undefined,
            key: Value::Undefined,
        }
    }
}
