//! Large valid inputs from two numbers: a script, a batch of URLs and the answers to all names that it asks for, and a
//! link in memory that answers from them.
//!
//! It stands on batch_text for batches and tables of answers, on pac_ports for links, on dns_message for questions and
//! replies, and on poll_log for what a log is.
#![tactic(auto)]

mod generating;
mod limits;
mod map_link;
mod names;
mod numbers;
mod replies;
mod summary;

pub use generating::{Generated, MOMENT, generate};
pub use limits::{MOST_MOVES, MOST_QUESTIONS};
pub use map_link::{KnownAnswers, MapLink};
pub use summary::{Kinds, Summary, kinds_of, summary_text};
