//! Questions for the address of a name, and what counts as their reply, by RFC 1035 (section 4.1).
//!
//! Messages are read and written in place, without memory; an answer is given for a whole response to the question
//! alone. It stands on dns_name.
#![tactic(auto)]

mod chain;
mod header;
mod laws;
mod numbers;
mod query;
mod question;
mod record;
mod reply;
mod truncation;

pub use laws::{one_name_replied, questions_differ, truncated_is_no_reply};
pub use query::{read_query, write_query};
pub use reply::{read_reply, write_reply};
pub use truncation::truncated;
