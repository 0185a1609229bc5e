//! Whole numbers of at most 2^53 - 1 in size, with exact arithmetic and conversions.
//!
//! They are the numbers of scripts: the whole part of ECMA-262 edition 5.1, section 8.5, up to where every whole number
//! is one of its Number values. A result that is none of them has a named refusal. It reads and gives texts of
//! utf16_text, and `itoa` writes the digits.
#![tactic(auto)]

mod answer;
mod numeral;
mod whole;

pub use answer::WholeAnswer;
pub use numeral::capped_value;
pub use whole::{LARGEST, Whole};
