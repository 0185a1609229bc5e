//! A list whose copies share the items that it began with.
//!
//! A copy of a list that is shared takes one reference count, however many items there are. An item that is shared is
//! copied when it is first written. It stands on the texts for want of memory alone.
#![tactic(auto)]

mod copied;
mod list;
mod parts;
mod slot;

pub use copied::Copied;
pub use list::{SharedList, push_both};
