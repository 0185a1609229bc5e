//! The laws that room for nesting changes nothing but a refusal as TooDeep, and that reading without a limit has room
//! enough.
//!
//! `specs/Laws.antt` states them on the definitions of js_grammar. The crate has no code that runs.
#![tactic(auto)]

mod laws;

pub use laws::{more_room_changes_nothing, no_limit_is_met};
