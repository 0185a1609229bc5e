//! The laws of resolved scripts: their source, what fits together in them, and that slots are look-ups by name.
//!
//! `specs/Environments.antt` has scopes as ECMA-262 edition 5.1, section 10.2, has them: lists of names with values,
//! along which a name is looked up. `specs/Laws.antt` states the laws on the definitions of js_binding. The crate has
//! no code that runs. It stands on js_binding and js_tree.
#![tactic(auto)]

mod laws;

pub use laws::{names_are_bound, resolved_fits, slots_are_look_ups, source_is_the_script};
