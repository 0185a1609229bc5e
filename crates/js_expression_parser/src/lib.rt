//! The productions of expressions, over what reads the parts that count as nested.
//!
//! Each method of `Parser` reads what its definition in js_grammar says, by ECMA-262 edition 5.1, section 11, cut to
//! this profile. Rows of parts are read by `row`, each kind by an impl of `Row`; those of binary operators stay open in
//! a list (`operators`). It stands on js_lexer, js_reading, js_grammar and js_tree, and the parser's other crates alone
//! use it.
#![tactic(auto)]

mod behind;
mod expressions;
mod nested;
mod operators;
mod parser;
mod statements;

pub use behind::{closed, ended};
pub use nested::Nested;
pub use parser::{Parser, Row};
pub use statements::Statements;
