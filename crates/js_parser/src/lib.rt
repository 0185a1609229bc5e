//! The parser of scripts: `read_script` gives the script that a text spells, or its first refusal.
//!
//! What a text spells is `script_of_text` of js_grammar, by ECMA-262 edition 5.1, sections 7 and 11 to 14, cut to this
//! profile. It stands on js_statement_parser, js_expression_parser, js_lexer, js_reading, js_grammar and js_tree.
#![tactic(auto)]

mod nested;
mod reader;
mod root;
mod script;

pub use script::{read_script, read_tokens};
