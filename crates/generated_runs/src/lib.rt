//! A generated batch that is resolved over a link in memory, and summed up.
//!
//! The link answers from the generated map, and the loop, the sessions and the runs are those of url_runs.
//! `specs/Summing.antt` says by a plan what is summed up, by the outcomes of uninterrupted runs against that map.
#![tactic(auto)]

mod summing;

pub use summing::{Network, Seed, sum_urls};
