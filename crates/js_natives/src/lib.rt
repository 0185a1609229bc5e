//! The built-in functions that code runs: what becomes of the values that are handed to them, what their walks cost,
//! and what those do that call nothing and ask nobody.
//!
//! Each is a function of the definition of evaluation (ECMA-262 5.1, section 15, cut to this profile; the page on the
//! Netscape Navigator Proxy Auto-Config format). It stands on that definition and its table of natives, on what rules
//! do to the heap, and on the methods of texts, numbers and arrays.
#![tactic(auto)]

mod arrays;
mod conversions;
mod errors;
mod lists;
mod numbers;
mod objects;
mod patterns;
mod texts;
mod walks;
mod works;

pub use conversions::{is_kept, methods_for, separator_of, settled, test_handed};
pub use lists::{array_of, define_elements, give_texts};
pub use objects::class_of;
pub use patterns::{is_pattern, literal_in};
pub use texts::text_work;
pub use walks::{argument, charge_elements, charge_plain_walk, charge_walk, charge_walk_of};
pub use works::plain_work;
