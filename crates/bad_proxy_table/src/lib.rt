//! Proxies that failed a short while ago, and the order in which to try those of a list.
//!
//! A proxy whose last report is a failure less than 300 seconds old is tried behind the others. It stands on proxy
//! lists.
#![tactic(auto)]

mod table;

pub use table::{BadTable, RETRY_SECONDS};
