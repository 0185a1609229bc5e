// How much is kept of what a run tells.

/// How many alerts of a run are kept.
pub const MOST_ALERTS: usize = 256;

/// How many units are kept of an alert, and of what a run throws.
pub const MOST_UNITS: usize = 1_024;
