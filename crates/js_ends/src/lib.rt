//! The ways in which a row of statements may end.
//!
//! `ends_of` tells by the form of the statements alone which types of completion they may have (ECMA-262 edition 5.1,
//! sections 8.9 and 12). It stands on js_tree.
#![tactic(auto)]

mod ends;
mod statements;

pub use ends::Ends;
pub use statements::ends_of;
