// How much a link in memory holds.
use batch_text::MOST_URLS;
use pac_names::MOST_NAMES;

/// How many questions are answered: those of the most URLs, each of which asks for the most names.
pub const MOST_QUESTIONS: usize = MOST_URLS * MOST_NAMES;

/// For how many moves there is room.
pub const MOST_MOVES: usize = 16_384;
