//! What a script uses and this language hasn't, or can't mean: `findings` lists it, all of it, in the order in which it
//! is written, each with its place, its name and what to write instead; `write_findings` writes a line for each.
//!
//! What is listed is a definition over the resolved script (`specs/Findings.antt`), by tables of names that code and
//! definition read alike (`src/tables.rt`). It stands on js_sites, js_ends and pac_names.
#![tactic(auto)]

mod advice;
mod finding;
mod lines;
mod listing;
mod lookups;
mod own;
mod rules;
mod standing;
mod tables;
mod texts;
mod words;

pub use advice::Advice;
pub use finding::{Finding, FindingList};
pub use lines::write_findings;
pub use listing::findings;
