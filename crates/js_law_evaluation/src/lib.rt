//! Three laws of evaluation: each part of a script, at each depth, and each run come to one end; a run asks its host for
//! lookup names alone; and a load that needs no clock is the load at each moment. The first two hold of a run by names
//! and of a run by slots.
//!
//! `specs/Laws.antt` states them on the definition of evaluation in js_evaluation. The crate has no code that runs.
#![tactic(auto)]

mod laws;

pub use laws::{
    evaluation_has_one_end, loads_at_each_moment, runs_ask_lookup_names, runs_have_one_end,
};
