//! The productions of `var` and of loops, over what reads the parts that count as nested.
//!
//! Each function reads what its definition in js_grammar says, by ECMA-262 edition 5.1, sections 12.2 and 12.6, cut to
//! this profile. It stands on js_expression_parser, js_reading, js_grammar and js_tree, and js_statement_parser alone
//! uses it.
#![tactic(auto)]

mod loops;
mod variables;

pub use loops::{do_statement, for_statement, while_statement};
pub use variables::var_statement;
