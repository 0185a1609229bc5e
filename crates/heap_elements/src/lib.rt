//! The properties of an object as a list of names and properties in the order of creation, and two forms of it: a few
//! in a row, and the elements of an array in slots by index.
//!
//! An array index is the decimal numeral of a number below 2^32 - 1 (ECMA-262 edition 5.1, section 15.4). Elements need
//! no names: where no index was left out, one is found, written and taken away in a step. It stands on the values.
#![tactic(auto)]

mod elements;
mod listing;
mod names;
mod row;

pub use elements::Elements;
pub use listing::{join_names, list_name, list_row};
pub use names::{array_index, index_name};
pub use row::{copy_of_row, find_in_row, remove_in_row, set_in_row};
