// The limit of nesting.

/// How many parts of a script may be nested.
pub const NESTING: u32 = 200;
