//! What hosts answer and keep at their limits, and what a run asks that begins again.
//!
//! It has tests alone, and stands on tracing_host.
#![tactic(auto)]

#[cfg(test)]
mod tests;
