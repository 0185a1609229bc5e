// The limit of depth.

/// How many parts of a run may be open.
pub const MOST_OPEN: usize = 2_000;
