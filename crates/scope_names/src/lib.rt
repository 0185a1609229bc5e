//! The names of a function's scope, and where a name stands among the scopes around it.
//!
//! `names_of` gathers the names of a function (ECMA-262 edition 5.1, section 10.5) into a `NameTable`, which finds the
//! slot of each by a search in an ordered map. `Scopes` are the scopes around a place, and tell where a name stands
//! (section 10.2). It stands on js_tree and on the definitions of js_binding.
#![tactic(auto)]

mod mentions;
mod name_table;
mod names;
mod scopes;
mod variables;

pub use name_table::NameTable;
pub use names::names_of;
pub use scopes::Scopes;
pub use variables::add_variables;
