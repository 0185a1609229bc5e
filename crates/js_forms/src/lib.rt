//! What to write instead of a form of the standard, or of a later edition, that isn't read.
//!
//! `advice_on` looks at a refusal of a script: at its kind, and at what stands at its place and right before it. The
//! table of src/forms.rt has the forms. It stands on js_lexer, js_grammar and js_tree.
#![tactic(auto)]

mod advice;
mod forms;
mod pieces;
mod places;

pub use advice::{advice_on, refusal_line};
