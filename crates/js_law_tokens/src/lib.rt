//! The law that reading a script loses, invents and reorders no token but round brackets, commas and semicolons.
//!
//! `specs/Laws.antt` states it on the definitions of js_grammar: a script is printed as the tokens that it was read
//! from, as far as `specs/BareTokens.antt` says. The crate has no code that runs. It stands on js_grammar.
#![tactic(auto)]

mod laws;

pub use laws::{reading_keeps_tokens, tests_hold_of_printed};
