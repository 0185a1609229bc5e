// The limits of texts.

/// The most units of a text that becomes a value of a script.
pub const LONGEST_TEXT: usize = 262_144;

/// The most bytes of a file that is read, and so the most units of the text that it decodes to.
pub const LONGEST_FILE: usize = 1_048_576;
