// How much of a stream is taken.

/// The most octets that are wanted at once.
pub(crate) const LONGEST_PIECE: usize = 512;

/// The octets of the longest frame: its length, and the longest message that two octets can tell.
pub(crate) const LONGEST_FRAME: usize = 65_537;
