// Limits of patterns, which code and definitions both read.

/// The most that a part may be repeated by a count.
pub const MOST_TIMES: u16 = 1_000;

/// How many groups a pattern may keep.
pub const MOST_GROUPS: u8 = 20;

/// How many groups may be nested.
pub const MOST_NESTED: u32 = 100;
