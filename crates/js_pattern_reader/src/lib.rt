//! `read_pattern`: the tree of a regular expression, or the first refusal (ECMA-262 edition 5.1, section 15.10.1).
//!
//! A pattern is read from left to right, its body before its flags. Look-ahead, control letters and octal numbers are
//! not supported, nor is what passes the limits of `src/limits.rt`. It stands on the trees of patterns.
#![tactic(auto)]

mod answer;
mod body;
mod classes;
mod counts;
mod escapes;
mod flags;
mod groups;
mod limits;
mod literal;
mod pattern;
mod pieces;

pub use answer::PatternAnswer;
pub use limits::{MOST_GROUPS, MOST_NESTED, MOST_TIMES};
pub use literal::PatternLiteral;
pub use pattern::{bodies_are_numbered, read_pattern};
