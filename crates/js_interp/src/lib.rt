//! Runs of scripts.
//!
//! `run` runs a script and its function for one URL, over a host that answers lookups. It comes to
//! the outcome of one uninterrupted run, or stops at the first name that the host doesn't know: `specs/Answers.antt`
//! says so by the definition of evaluation (ECMA-262 edition 5.1, cut to this profile). It stands on js_runs, and on
//! the programs of js_scope.
#![tactic(auto)]

mod endings;
mod entry;
mod image;
mod loaded_run;
mod one_run;
mod outcome;
mod prepared;

pub use entry::Entry;
pub use image::{Image, LoadAnswer, load};
pub use js_evaluation::{Fault, FaultCode};
pub use loaded_run::run_loaded;
pub use one_run::{RunAnswer, run};
pub use outcome::{Ending, Outcome};
pub use prepared::Prepared;
