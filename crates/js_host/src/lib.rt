//! What a run asks of the outside: answers to lookup names, and alerts that are kept.
//!
//! A host knows some answers, writes down the names that it is asked, and keeps the alerts that it is told, each up to
//! a limit. `specs/Seen.antt` says what each call does to that record. It stands on names and texts.
#![tactic(auto)]

mod alerts;
mod host;
mod limits;

pub use alerts::{keep_alert, kept_units};
pub use host::{Host, Looked};
pub use limits::{MOST_ALERTS, MOST_UNITS};
