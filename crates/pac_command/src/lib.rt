//! The commands and the program's one top call, `pac`.
//!
//! Each command is a plan of pac_plan, in `specs/`, and code that follows it. It stands on pac_words for the words, on
//! pac_plan and pac_ports for the outside, on pac_clocks for moments, on js_parser, js_printer and js_scope for
//! scripts, on batch_text for URLs and names, on url_runs for the runs of scripts and their report, on pac_ask, and on
//! pac_generate and generated_runs for generated inputs.
#![tactic(auto)]

mod check;
mod early;
mod generate;
mod given;
mod inputs;
mod output;
mod top;
mod urls;
mod work;

pub use given::Given;
pub use pac_plan::Status;
pub use top::pac;
