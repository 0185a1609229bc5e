// Names of objects and scopes, and what an object is.

/// An object of a heap, by its number in the order of creation.
#[derive(Clone, Copy, Debug, PartialEq, Eq)]
pub struct ObjectId(pub u32);

/// A scope of a heap, by its number in the order of creation.
#[derive(Clone, Copy, Debug, PartialEq, Eq)]
pub struct ScopeId(pub u32);

/// What an object is (ECMA-262 5.1, section 8.6.2, `[[Class]]`).
#[derive(Clone, Copy, Debug, PartialEq, Eq)]
pub enum Kind {
    /// An object of no other kind.
    Plain,
    /// An array; its `length` follows its elements.
    Array,
    /// A function of the script, by its number, with the scope in which it was made.
    Function(u32, ScopeId),
    /// A built-in function, by its number.
    Native(u16),
    /// An error.
    Error,
    /// A regular expression, by the number of its literal in its heap.
    Pattern(u32),
}
