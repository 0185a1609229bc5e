//! The laws that the groups of a pattern that are counted beforehand are those that are read, and that each reference
//! names one of them.
//!
//! `specs/Laws.antt` states them on js_pattern_reader's definition of reading. The crate has no code that runs. It
//! stands on js_pattern_reader and js_pattern.
#![tactic(auto)]

mod laws;

pub use laws::{groups_are_counted, references_name_groups};
