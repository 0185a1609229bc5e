// What a heap holds at most.

/// The most cells that a run makes.
pub const MOST_CELLS: u64 = 2_000_000;

/// The largest length of an array.
pub const LONGEST_ARRAY: u32 = 100_000;

/// The most units of all texts that a run makes.
pub const MOST_TEXT: u64 = 16_777_216;
