//! What the machine does at entries: calls, constructions, bodies of functions, and the load of a script (ECMA-262 5.1,
//! sections 10.4 to 10.6, 13.2 and 14).
//!
//! Each goes on from the machine as evaluation does from its rule. It stands on the machine, on statements, on calls of
//! built-in functions and on scope_names for the names that a script declares.
#![tactic(auto)]

mod arguments;
mod bodies;
mod calls;
mod globals;
mod names;

pub use bodies::{entry_back, entry_stopped};
pub use calls::{call_node, construct_node};
pub use globals::load_node;
