//! What the machine does at statements (ECMA-262 5.1, section 12): a function for each rule, and for what comes back.
//!
//! Each goes on from the machine as evaluation does from its rule. It stands on the machine.
#![tactic(auto)]

mod attempts;
mod back;
mod for_in;
mod for_loop;
mod listed;
mod loops;
mod simple;
mod statement;
mod stopped;
mod switch;
mod variables;

pub use back::{loop_back, loop_referred, statement_back};
pub use simple::statements_from;
pub use statement::statement_node;
pub use stopped::{loop_stopped, statement_stopped};
pub use variables::variables_from;
