//! The productions of statements, over what reads the parts that count as nested.
//!
//! Each function reads what its definition in js_grammar says, by ECMA-262 edition 5.1, sections 12 and 13, cut to this
//! profile. It stands on js_loop_parser, js_expression_parser, js_lexer, js_reading, js_grammar and js_tree, and
//! js_parser alone uses it.
#![tactic(auto)]

mod attempts;
mod blocks;
mod branches;
mod ends;
mod statements;
mod switches;

pub use blocks::block;
pub use statements::statement;
