//! Calls of built-in functions (ECMA-262 5.1, section 15; the page on the Netscape Navigator Proxy Auto-Config format).
//!
//! What is handed to one is converted from left to right, an object by its methods, and then the function works. Each
//! call goes on from the machine as evaluation does from its rule. It stands on the machine, and on what natives do
//! with values that are converted.
#![tactic(auto)]

mod calls;
mod converting;
mod doing;
mod errors;
mod giving;
mod handed;
mod joining;
mod readying;
mod searching;

pub use calls::native_call;
pub use converting::convert;
pub use errors::{error_message, error_named, joined};
pub use giving::type_error;
pub use handed::value_converted;
pub use joining::element_converted;
pub use searching::begin_converted;
