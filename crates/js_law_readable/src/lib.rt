//! The law that each script that reading gives is one of the readable trees.
//!
//! `specs/Readable.antt` says which trees reading can give, but for their spelling, and `specs/Laws.antt` states the
//! law on js_grammar's definition of reading. The crate has no code that runs. It stands on js_grammar and js_tree.
#![tactic(auto)]

mod laws;

pub use laws::{scripts_read_are_readable, texts_read_are_readable};
