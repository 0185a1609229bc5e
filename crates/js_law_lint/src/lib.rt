//! The law that the tables of findings and the table of built-in objects agree: what is left out there is told here,
//! and nothing else that is there.
//!
//! `specs/Laws.antt` states it on the definitions of js_lint and object_heap. The crate has no code that runs.
#![tactic(auto)]

mod laws;

pub use laws::{functions_agree, globals_agree, members_agree, objects_agree};
