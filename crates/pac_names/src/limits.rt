// The limit of names.

/// How many distinct lookup names a run may ask.
pub const MOST_NAMES: usize = 32;
