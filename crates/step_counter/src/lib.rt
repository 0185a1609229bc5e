//! A counter of no size at run time: how often something was done.
//!
//! A contract says by how much a call raises it, and no code can read it. It stands on std's ledgers alone.
#![tactic(auto)]

mod steps;

pub use steps::Steps;
