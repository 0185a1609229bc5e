//! The built-in methods of arrays: those of `Array.prototype` (ECMA-262 edition 5.1, section 15.4.4) that call no
//! function of the script.
//!
//! It gives their work on an array of a heap, with positions that are converted already, by one definition: a chain of
//! what the heap's own calls make of it. It also joins texts; a text that would be too long is counted and not made. It
//! stands on the heap, and on the equality of values.
#![tactic(auto)]

mod arguments;
mod call;
mod elements;
mod ends;
mod joining;
mod order;
mod parts;
mod places;
mod splicing;

pub use call::{ArrayMethod, call_array};
pub use joining::{JoinAnswer, join_texts};
