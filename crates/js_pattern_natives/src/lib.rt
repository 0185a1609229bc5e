//! The built-in functions that search a text for a pattern: the methods of patterns, and those of texts that take one.
//!
//! Each is a function of the definition of evaluation (ECMA-262 edition 5.1, sections 15.10.6 and 15.5.4, cut to this
//! profile), on values that are converted. Each search takes what it costs from the fuel. It stands on the state of a
//! run, on what is done to its heap, and on searches over plain texts.
#![tactic(auto)]

mod giving;
mod methods;
mod searching;
mod working;

pub use working::{pattern_work, read_by};
