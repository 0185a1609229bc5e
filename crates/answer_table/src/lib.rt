//! Answers by lookup name, each of which stays as it was put in.
//!
//! A table is seen as a finite map. It stands on names.
#![tactic(auto)]

mod table;

pub use table::AnswerTable;
