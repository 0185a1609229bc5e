//! The values of a script, and the state that a run keeps them in: objects with their properties, and scopes.
//!
//! It gives the types that the heap and all above it share, with the records that contracts see a heap as (ECMA-262
//! edition 5.1, sections 8 and 10, cut to whole numbers). It stands on texts and whole numbers.
#![tactic(auto)]

mod answer;
mod built_in;
mod found;
mod ids;
mod property;
mod value;

pub use answer::HeapAnswer;
pub use built_in::BuiltIn;
pub use found::Found;
pub use ids::{Kind, ObjectId, ScopeId};
pub use property::{Content, Property};
pub use value::Value;
