//! Whole runs of scripts on the machine.
//!
//! `run_on` goes on from a part until no part is open, and asks and tells the host of the run meanwhile;
//! `specs/Closes.antt` says that it comes to the end that the definition of evaluation gives over that host. It stands
//! on the machine, the rules of statements, expressions and entries, and the functions of the proxy format.
#![tactic(auto)]

mod asking;
mod back;
mod begin;
mod running;

pub use running::{Cut, run_on};
