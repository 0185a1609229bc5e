//! The law that each script that is read resolves as a run by names wants it: each name has the place where it is
//! found, and without these places it is the script with its functions by number.
//!
//! `specs/Laws.antt` states it on the definitions of js_grammar and js_binding. The crate has no code that runs. It
//! stands on js_law_readable, by which no function that is declared in a script that was read has a name of its own,
//! and on js_law_right.
#![tactic(auto)]

mod laws;

pub use laws::{reads_are_anonymous, reads_are_right};
