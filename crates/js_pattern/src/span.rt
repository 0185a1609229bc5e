// What groups have matched.
use utf16_text::List;

/// A part of a text: from the first place up to and without the second.
#[derive(Clone, Copy, Debug, PartialEq, Eq)]
pub struct Span {
    pub from: usize,
    pub to: usize,
}

/// What each group has matched, by its number; None where it is unset.
pub type GroupList = List<Option<Span>>;
