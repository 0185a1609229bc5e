//! The laws that no script is changed by resolving: the source of the resolved script is the script that was read, and
//! so is that of the script with its functions by number, which a run by names takes.
//!
//! `specs/Laws.antt` states them on the definitions of js_grammar and js_binding. `proofs/BackTrees.antt` has an
//! equation for each node, and is written by `tools/write_tree.py`. The crate has no code that runs. It stands on
//! js_law_readable, by which a script that was read has no bounds, and on js_law_binding.
#![tactic(auto)]

mod laws;

pub use laws::{sources_of_numbered_scripts, sources_of_scripts_read};
