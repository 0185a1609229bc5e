//! The laws by which a run may look names up: each name of a resolved script has the place where it is found, and
//! without these places the resolved script is the script with its functions by number.
//!
//! `specs/Numbered.antt` of js_binding is that script, the source of a run by names; `specs/Right.antt` says when the
//! names of a program have the places where they stand. Four files with an equation for each node, two of them proofs,
//! are written by `tools/write_tree.py`. The crate has no code that runs. It stands on js_binding and js_tree.
#![tactic(auto)]

mod laws;

pub use laws::{resolved_is_numbered, resolved_is_right};
