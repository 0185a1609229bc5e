//! Runs of scripts as jobs that wait for names, and how their sessions end by a log.
//!
//! `specs/Asked.antt` says which names a run asks, whatever answers them, and makes a job of it, as poll_log knows
//! jobs: the first name that the answers don't hold. `specs/Sessions.antt` says what many sessions cost, and how each
//! ends: with the outcome of the uninterrupted run against every map that holds what is told, or with a dead name.
//! `specs/Laws.antt` has what holds of them. The crate has no code that runs; it stands on poll_log and run_trees.
#![tactic(auto)]

mod laws;

pub use laws::{
    ends_stay, is_isolated, lacks_the_first_missing, runs_are_jobs, runs_ask_in_order,
    runs_cost_their_names, runs_grow, sessions_end, told_is_finite,
};
