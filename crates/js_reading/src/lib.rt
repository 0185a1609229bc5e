//! How the parser of scripts reads tokens, without nested parts: what comes next, operators by their tokens, names and
//! signs that must stand somewhere, and what the grammar decides about nodes; and rows of parts, whatever reads a part.
//!
//! Each function gives what js_grammar says of it. It stands on js_lexer, js_grammar and js_tree, and the other two
//! crates of the parser alone use it.
#![tactic(auto)]

mod around;
mod lookahead;
mod nodes;
mod operators;
mod reading;
mod turns;

pub use around::{at_top, in_function, in_loop, in_switch, inside};
pub use lookahead::{
    begins_line, closes, ends, is_accessor, is_sign, next_keyword, next_sign, refused_word,
    rest_of, semicolon_if,
};
pub use nodes::{before_in, chained, has_part, joined, suffixed_by, unbound, with_default};
pub use operators::{
    level_of, next_assign, next_at_level, next_binary, next_postfix, next_unary, next_update,
};
pub use reading::{
    Read, alone, broken, continued, expect, expect_while, next_name, place_at, read_name,
    read_parameters, read_semicolon, read_word, refused,
};
pub use turns::{add_part, row, row_behind};
