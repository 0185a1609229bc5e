//! The law that printed tokens are read again as the same tree, places put aside, for each readable tree,
//! and so for each script that reading gives.
//!
//! `specs/Laws.antt` states it on the definitions of js_grammar; which trees reading can give is js_law_readable's
//! `AreStatements`. The crate has no code that runs. It stands on js_law_readable and js_grammar.
#![tactic(auto)]

mod laws;

pub use laws::{printed_tokens_are_read_again, scripts_read_are_read_again};
