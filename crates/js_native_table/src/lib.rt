//! The table of the built-in functions that code runs, as code reads it: which function each number stands for, its name
//! in a fault, which of them construct, what is handed to each, how many of these values it takes, what becomes of each,
//! and what it goes over.
//!
//! Each is what the definition of evaluation reads from the same table (ECMA-262 5.1, section 15, cut to this profile;
//! the page on the Netscape Navigator Proxy Auto-Config format). It stands on that definition.
#![tactic(auto)]

mod rows;
mod table;
mod takes;

pub use table::{constructs, error_prototype, name_of, native_name, native_of, walk_of};
pub use takes::{conversion_at, is_method, taken_by};
