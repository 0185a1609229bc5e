//! What the machine does at literals, functions, `new`, calls and choices (ECMA-262 5.1, sections 11.1, 11.2, 11.12 and
//! 11.14): a function for each rule, and for what comes back.
//!
//! None of these reads what it is handed as a primitive value. Each goes on from the machine as evaluation does from
//! its rule. It stands on the machine, and on the errors that a call throws.
#![tactic(auto)]

mod calls;
mod choices;
mod creation;
mod functions;
mod literals;

pub use calls::{argument_done, first_arguments};
pub use choices::{chosen, comma_from, conditional};
pub use creation::{called_new, new_argument_done, new_value};
pub use functions::function_value;
pub use literals::{
    array_literal, item_done, object_literal, pattern_literal, property_done, text_literal,
};
