//! One script for many URLs, with their report: over a link to a server, or against a file of names.
//!
//! Over a link each URL has a session of session_core, whose runs are those of js_interp. Against a file of names each
//! URL has one run. `specs/Resolving.antt` and `specs/Mapping.antt` say by plans what is reported, by the outcomes of
//! uninterrupted runs.
#![tactic(auto)]

mod laws;
mod mapping;
mod preparing;
mod reports;
mod resolving;
mod url_run;
mod work;

pub use laws::{
    completions_are_there, each_map_is_taken, runs_are_few, tasks_are_sound, told_are_answered,
};
pub use mapping::map_urls;
pub use resolving::{end_urls, resolve_urls};
pub use url_run::UrlRun;
pub use work::Work;
