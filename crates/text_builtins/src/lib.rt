//! The built-in methods of texts: those of `String.prototype` (ECMA-262 edition 5.1, sections 15.5.4 and B.2.3) but for
//! `match`, `search` and the local cases.
//!
//! It gives their work on a receiver and arguments that are converted already, by one definition. A text that would be
//! too long is counted and not made. It stands on the texts and the numbers of scripts.
#![tactic(auto)]

mod call;
mod joining;
mod parts;
mod places;
mod replacing;
mod splitting;

pub use call::{TextArg, TextMethod, TextResult, call_text};
