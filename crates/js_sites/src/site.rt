// Sites.
use js_tree::Place;
use utf16_text::{List, Text};

/// Sites, in the order in which they are written.
pub type SiteList = List<Site>;

/// What a script does at a place of it. A global name is one that no scope has (ECMA-262 5.1, section 10.2.2.1).
#[derive(Drop)]
pub enum Site {
    /// A global name stands there as an expression.
    Named {
        place: Place,
        name: Text,
    },
    /// `new` stands before this global name.
    Constructed {
        place: Place,
        name: Text,
    },
    /// A global name is declared, or written by `=`, by `this.name =` or by a `for`-`in`.
    Written {
        name: Text,
    },
    /// A property is named behind a `.`, whose place it is. The object is the global name before it, where one stands
    /// there alone.
    Member {
        place: Place,
        object: Option<Text>,
        name: Text,
    },
    /// A property of this name is made, by an object literal or an assignment.
    Made {
        name: Text,
    },
    /// A text is handed to a global function, as its argument of this number, counted from 0.
    Handed {
        place: Place,
        function: Text,
        number: u32,
        text: Text,
    },
    /// A text is compared with a value, handed to a method of it, or handed to a global function behind it. The value
    /// begins with this name, as `url.substring(0, 4)` does with `url`.
    Beside {
        place: Place,
        name: Text,
        text: Text,
    },
    /// A function, by its number; the name is that of its declaration.
    Function {
        place: Place,
        name: Option<Text>,
        number: u32,
    },
}
