//! Runs as trees of what they ask, written with what comes after each part, and their laws.
//!
//! `specs/RunTree.antt` says what a run over a host comes to, `specs/WholeRun.antt` what the whole run against a map of
//! all names is, and `specs/Laws.antt` how the two agree. `specs/Runs.antt` has the words by which evaluation is
//! defined: each part with what comes after it. The crate has no code that runs. It stands on the record of hosts.
#![tactic(auto)]

mod abrupt;
mod laws;

pub use abrupt::Abrupt;
pub use laws::{
    asks_few_names, depends_on_its_names, extension, nothing_is_missing, restart, walks_by_step,
    words_have_one_end,
};
