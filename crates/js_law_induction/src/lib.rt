//! One induction over the grammar: what holds of each node whose parts it holds of, holds of each script that is read.
//!
//! `proofs/` has it over two runs of reading at once, over the definitions of js_grammar, and the laws on reading stand
//! on it. `specs/Laws.antt` states what it says of tokens alone. The crate has no code that runs.
#![tactic(auto)]

mod laws;

pub use laws::nothing_is_given_back;
