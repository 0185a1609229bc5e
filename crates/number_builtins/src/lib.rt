//! The built-in functions of numbers: `Math.abs`, `max`, `min`, `floor`, `ceil` and `round`, `parseInt`, and the
//! `toString` of a number (ECMA-262 edition 5.1, sections 15.8.2, 15.1.2.2 and 15.7.4.2), cut to whole numbers.
//!
//! It gives their work on arguments that are converted already, by one definition. It stands on the texts and the
//! numbers of scripts.
#![tactic(auto)]

mod call;
mod math;
mod numerals;
mod parsing;

pub use call::{NumberArg, NumberMethod, NumberResult, call_number};
