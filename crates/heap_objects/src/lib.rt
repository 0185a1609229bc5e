//! Objects and scopes: the properties of an object by name in the order of creation, and the values of a scope by slot.
//!
//! An object is that of ECMA-262 edition 5.1, section 8.6, without getters and setters. A property is found in steps
//! that grow with the logarithm of their number; writing and deleting one take so many on average over all of them. The
//! properties that a built-in object begins with stay in a constant table until a script writes one. The elements of an
//! array that is filled from 0 up are found and written by index in a step, and no name is made for them. It stands on
//! the lists of properties.
#![tactic(auto)]

mod index;
mod layered;
mod marks;
mod name_set;
mod object;
mod ordered;
mod properties;
mod scope;
mod slots;
mod table_row;
mod table_rows;

pub use heap_elements::array_index;
pub use marks::Marks;
pub use name_set::NameSet;
pub use object::Object;
pub use properties::Properties;
pub use scope::Scope;
pub use table_row::{Entry, TableRow};
