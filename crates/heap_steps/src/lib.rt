//! What the rules of evaluation do to the heap where they visit no part of the script: they make objects, read and
//! write properties and names, apply operators to primitive values, and throw errors of the engine's own.
//!
//! Each call does what its definition in js_evaluation says, whatever comes after it (`specs/Works.antt`): it gives a
//! value, throws, or ends the run. It stands on that definition and the heap.
#![tactic(auto)]

mod errors;
mod functions;
mod halt;
mod making;
mod names;
mod primitives;
mod properties;
mod writing;

pub use errors::{throw_error, throw_type_error};
pub use functions::{callable, closure};
pub use halt::{Halt, refused};
pub use making::{
    define, define_as, define_at, make, make_by, make_pattern, make_scope, spend, test_text,
};
pub use names::{delete_name, read_name, read_or_undefined, write_name};
pub use primitives::{bits_or_fault, counted, number_or_fault, operate, stepped};
pub use properties::{
    count_of, found_value, get, get_by, has_property, own_of, stands_among, test_base,
};
pub use writing::{delete_property, put, put_by, put_on};
