//! IPv6 addresses as texts: `quad6` reads one, `write6` writes one in its plain spelling, and `in_prefix` says whether
//! an address of either family is in a prefix.
//!
//! Texts are those of RFC 4291 (sections 2.2 and 2.3), the plain spelling is that of RFC 5952 (section 4). It stands on
//! pac_names, which has dotted quads, and takes no memory.
#![tactic(auto)]

mod address;
mod cut;
mod group;
mod prefix;
mod quad;
mod read;
mod row;
mod side;
mod write;

pub use prefix::in_prefix;
pub use read::quad6;
pub use write::{LONGEST, write6};
