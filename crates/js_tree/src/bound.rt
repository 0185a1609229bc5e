// Names, and where they stand among the scopes.
use utf16_text::Text;

/// Where the value of a name stands (ECMA-262 5.1, section 10.2).
#[derive(Clone, Copy, Debug, PartialEq, Eq)]
pub enum Bound {
    /// Not looked for yet: the name of a tree that was read.
    Unbound,
    /// So many scopes outward, at this slot there.
    Slot { up: u32, slot: u32 },
    /// So many scopes outward, the one name of the scope that a function expression has for its own name.
    Own { up: u32 },
    /// In no scope: a property of the global object.
    Global,
}

/// A name that is read, written or declared, with where it stands.
#[derive(Drop)]
pub struct BoundName {
    pub name: Text,
    pub bound: Bound,
}
