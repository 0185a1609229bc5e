//! The plan of the top call: what a command does with the outside, step by step, and what following it leaves.
//!
//! A command is a plan, plain data over its words; this crate says once, for all commands, which answers, reads, runs
//! and bytes following a plan can leave, and proves the rules of order and completeness for every plan. It stands on
//! pac_ports, whose states it speaks of.
#![tactic(auto)]

mod output;
mod status;

pub use output::{Output, give, line};
pub use status::Status;
