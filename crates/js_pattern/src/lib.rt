//! Patterns of regular expressions as trees (ECMA-262 edition 5.1, section 15.10), and what they match at which cost.
//!
//! `specs/Ways.antt` has the ways of a pattern in order of preference, `specs/Walk.antt` and `specs/Offers.antt` what
//! it costs to look for the first, and `src/laws.rt` what holds of both. It stands on texts alone.
#![tactic(auto)]

mod bounds;
mod class;
mod flags;
mod laws;
mod node;
mod pattern;
mod span;
mod words;

pub use bounds::Bounds;
pub use class::{Class, ClassItem, ClassItemList, Set};
pub use flags::Flags;
pub use laws::{
    repeat_is_turns_of_the_smaller, walk_ends_at_the_first_way, walk_is_that_of_its_offers,
    ways_stay_within_the_text,
};
pub use node::{Assertion, Node, NodeKind, NodeList};
pub use pattern::Pattern;
pub use span::{GroupList, Span};
pub use words::is_word;
