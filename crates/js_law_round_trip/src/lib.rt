//! The two laws that bind reading and printing: what is printed is read back, and no token is lost, invented or
//! reordered.
//!
//! `specs/Laws.antt` states them on texts, by js_grammar's definitions of tokens, of reading and of printing. The crate
//! has no code that runs. It stands on the laws of the parts: js_law_readable, js_law_rereading, js_law_tokens,
//! js_law_places, and js_law_spelling.
#![tactic(auto)]

mod laws;

pub use laws::{of_text, printing_is_read_back, tokens_are_kept};
