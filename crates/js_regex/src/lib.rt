//! Regular expressions (ECMA-262 edition 5.1, section 15.10): patterns are read, and the first match of one in a text
//! is found, at a cost that is known.
//!
//! The matcher goes by two stacks of its own: what is still to be matched, and what is undone or tried where it goes
//! back. What they stand for, by the definition of a walk, is in `specs/Stacks.antt`. It stands on the patterns, their
//! reader and the texts.
#![tactic(auto)]

mod answer;
mod failing;
mod fuel;
mod groups;
mod leaf;
mod matcher;
mod search;
mod stack;
mod state;
mod step;
mod turns;
mod units;

pub use answer::FindAnswer;
pub use js_pattern::{Flags, GroupList, Pattern, Span};
pub use js_pattern_reader::{PatternAnswer, read_pattern};
pub use search::{Match, find};
