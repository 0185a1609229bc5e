//! What the objects in memory of pac_ports answer, as tables of calls; and that steps are counted.
//!
//! It has tests alone, and stands on pac_ports and step_counter.
#![tactic(auto)]

#[cfg(test)]
mod links;
#[cfg(test)]
mod steps;
#[cfg(test)]
mod tests;
