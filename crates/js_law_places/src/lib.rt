//! The laws on what reading sees of tokens beside their kinds: their places, and lines' ends before them.
//!
//! `specs/Laws.antt` states them on the definitions of js_grammar; `specs/Placeless.antt` puts places aside.
//! The crate has no code that runs. It stands on js_grammar.
#![tactic(auto)]

mod laws;

pub use laws::{first_line_is_not_seen, places_are_put_aside};
