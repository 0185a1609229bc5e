//! The lexer of scripts: `lex` gives the tokens of a text and the place of its end, or its first refusal.
//!
//! What the tokens of a text are is `tokens_of` of js_grammar, by ECMA-262 edition 5.1, section 7, cut to this profile.
//! It reads each unit a fixed number of times and copies only what tokens hold. It stands on js_grammar and js_tree.
#![tactic(auto)]

mod lexer;
mod numbers;
mod patterns;
mod pieces;
mod recent;
mod signs;
mod slashes;
mod texts;
mod units;
mod words;

pub use lexer::{Lexed, lex};
pub use patterns::{is_plain, numbered_unit};
pub use words::{is_spelled, keyword_of, keyword_spelling};
