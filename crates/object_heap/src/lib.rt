//! The heap of a run: objects, scopes and what the run has made, with the limits that stop it.
//!
//! It gives the state of ECMA-262 edition 5.1, sections 8.12 and 10.2, cut to this profile. Each call is total: an id
//! or a slot that isn't there reads as absent or undefined, and a write there changes nothing. It stands on objects and
//! scopes.
#![tactic(auto)]

mod fresh;
mod heap;
mod kept_literal;
mod limits;
mod pattern_names;
mod table;

pub use heap::Heap;
pub use heap_objects::Marks;
pub use heap_values::{BuiltIn, Found, HeapAnswer, Kind, ObjectId, ScopeId, Value};
pub use limits::{LONGEST_ARRAY, MOST_CELLS, MOST_TEXT};
