//! What the machine does at expressions (ECMA-262 5.1, section 11): a function for each rule, and for what comes back.
//!
//! Each goes on from the machine as evaluation does from its rule. It stands on the rules of literals and calls, and on
//! calls of built-in functions for objects that become primitive values.
#![tactic(auto)]

mod assignments;
mod back;
mod expression;
mod operators;
mod primitives;
mod rows;
mod suffixes;
mod unary;
mod updates;

pub use back::{expression_back, suffix_back, target_back};
pub use expression::{expression_node, target_node};
pub use primitives::method_done;
