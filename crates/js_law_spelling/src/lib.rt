//! The laws that a token's spelling is read as that token, that what is read can be spelt, and that the bytes of a
//! printed script are lexed as its printed tokens, places put aside.
//!
//! `specs/Laws.antt` states them on the definitions of js_grammar, the last one for each of js_law_readable's readable
//! trees; `specs/Spellable.antt` says which tokens a text can spell, `specs/Lined.antt` which tokens a printed script
//! has. The crate has no code that runs.
#![tactic(auto)]

mod laws;

pub use laws::{printed_scripts_are_lexed, spellings_are_read, tokens_are_spellable};
