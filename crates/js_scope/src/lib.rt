//! A script, once its names are resolved: each name has its slot, and each function stands by its number.
//!
//! `resolve` makes the `Program` of a `Script`, by ECMA-262 edition 5.1, sections 10.2 and 10.5: hoisted names, scopes,
//! and where each name stands. It stands on js_tree, scope_names and the definitions of js_binding.
#![tactic(auto)]

mod expressions;
mod functions;
mod names;
mod nested;
mod parts;
mod program;
mod resolver;
mod root;
mod scripts;
mod statements;

pub use program::Program;
pub use scripts::resolve;
