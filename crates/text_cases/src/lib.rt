//! What no clause says of texts, lists and whole numbers: that calls with ample memory give their answer, on worked
//! values.
//!
//! The values are those of ECMA-262 edition 5.1 and RFC 2781. It has tests alone, and stands on utf16_text and
//! whole_number.
#![tactic(auto)]

#[cfg(test)]
mod numbers;
#[cfg(test)]
mod texts;
