//! Hosts over a table of answers, which write down what a run asks and tells.
//!
//! One knows the table's answers alone, so that a run over it may stop at a name; the other knows every name, and none
//! is missing. Both meet the clauses of `Host`. It stands on the table and on js_host.
#![tactic(auto)]

mod map_host;
mod name_list;
mod trace;
mod tracing;

pub use map_host::MapHost;
pub use name_list::NameList;
pub use tracing::TracingHost;
