//! The definitions of the language of scripts: how its texts are read, and how its trees are printed.
//!
//! `specs/` says what the tokens of a text are, by ECMA-262 edition 5.1, section 7, and which script tokens spell, by
//! its sections 11 to 14, cut to this profile. Lexer, parser and printer stand on it. Its code is only what its
//! definitions speak of, and the test of a target, by which the parser refuses and `delete` chooses. It stands on
//! js_tree.
#![tactic(auto)]

mod around;
mod form;
mod limits;
mod target;
mod turn;

pub use around::Around;
pub use form::{Form, LeftSide};
pub use limits::NESTING;
pub use target::is_target;
pub use turn::Turn;
