//! The printer of scripts: `print` gives the bytes that a script is printed as.
//!
//! They are `printed_bytes` of js_grammar: tokens parted by one space, each operand in brackets, a line for each
//! statement of the script. It stands on js_tree and js_grammar.
#![tactic(auto)]

mod expression;
mod printer;
mod script;
mod statement;
mod token;

pub use script::print;
