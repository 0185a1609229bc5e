//! Names in DNS messages, by RFC 1035 (sections 2.3.4, 3.1 and 4.1.4): written, skipped and compared in place.
//!
//! It takes no memory and trusts no octet: a pointer is followed only to before the start of its own piece, so each
//! walk ends. It stands on pac_names.
#![tactic(auto)]

mod compare;
mod part;
mod place;
mod skip;
mod write;

pub use compare::{same_name, spells};
pub use skip::{name_end, skip_name};
pub use write::write_name;
