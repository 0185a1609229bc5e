//! Proxy lists, as the function of a script answers them, and entries as they are written.
//!
//! A list is split at `;`, and a piece that can't be read is skipped. It stands on texts and whole numbers.
#![tactic(auto)]

mod entry;
mod list;
mod proxy;
mod words;
mod writing;

pub use entry::parse_entry;
pub use list::{ProxyList, parse_list};
pub use proxy::{Proxy, ProxyKind};
pub use writing::write_entry;
