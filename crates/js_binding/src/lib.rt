//! The definitions of names and slots: what a script is once each of its names has its place.
//!
//! `specs/` says which names the scope of a function has (`Names.antt`), where a name stands among the scopes around it
//! (`Scopes.antt`), and what a script is once its names are slots and its functions stand by number (`Resolved.antt`),
//! by ECMA-262 edition 5.1, sections 10.2 and 10.5. The crate has no code; it stands on js_tree.
#![tactic(auto)]
