//! Conversions of primitive values, and operators on them.
//!
//! They are those of ECMA-262 edition 5.1, sections 9 and 11.5 to 11.10, cut to whole numbers: a result that is no
//! whole number has a named refusal. An object has been made a primitive value before it comes here. It stands on the
//! values.
#![tactic(auto)]

mod answer;
mod digits;
mod equality;
mod numeric;
mod operands;
mod operators;
mod order;
mod texts;

pub use answer::ConvertAnswer;
pub use equality::{loose_equals, strict_equals};
pub use js_tree::BinaryOp;
pub use numeric::{Numeric, to_boolean, to_number};
pub use operators::binary;
pub use order::less;
pub use texts::to_text;
