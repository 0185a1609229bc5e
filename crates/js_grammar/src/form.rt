// What the productions of expressions depend on.

/// Which form of a production is read (ECMA-262 5.1, sections 11.8 to 11.14).
#[derive(Clone, Copy, Debug, PartialEq, Eq)]
pub enum Form {
    Plain,
    /// The form with the suffix NoIn: outside brackets `in` is no operator. The header of a `for` loop is read by it.
    NoIn,
}

/// Which suffixes may follow (ECMA-262 5.1, section 11.2).
#[derive(Clone, Copy, Debug, PartialEq, Eq)]
pub enum LeftSide {
    /// Members, indexes and calls.
    Call,
    /// Members and indexes: the callee of `new`.
    Member,
}
