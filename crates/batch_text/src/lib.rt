//! Reads what stands beside the script: URLs, as a script sees them, batches of them, and files of names.
//!
//! What a URL is, is as the URL Standard (sections 4.4 and 4.5) has it. It stands on tables of answers, names, IPv6
//! addresses and texts, and on `url`.
#![tactic(auto)]

mod batch;
mod lines;
mod names;
mod seen;
mod told;
mod urls;

pub use batch::{Batch, BatchAnswer, BatchKind, BatchLine, MOST_URLS, read_batch};
pub use names::{NamesAnswer, NamesKind, read_names};
pub use seen::{View, ViewAnswer};
pub use told::read_told_names;
pub use urls::{LONGEST_URL, view};
