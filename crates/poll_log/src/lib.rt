//! What a log of sends, datagrams and ticks says of the names that were asked: definitions by counting in the log, and
//! the laws that they obey.
//!
//! `specs/` cuts a log into turns, counts its beats, and says how old each name is, what it was answered, when it is
//! dead, and which sends are owed to jobs that wait for names. A job is any function from the answers that are told to
//! the first name that it still lacks. The code is the types that the definitions speak of, and when a question is sent
//! again; it stands on pac_ports and dns_message.
#![tactic(auto)]

mod flight;
mod laws;
mod question;
mod sending;
mod terms;

pub use flight::Flight;
pub use laws::{
    age_is_since_birth, all_told_finishes, beat_bound, dead_stays, finished_stays,
    questions_are_read, run_bound, runs_are_restartable, sent_as_due, told_grows, told_was_sent,
    unanswered_stays,
};
pub use question::Question;
pub use sending::Sending;
pub use terms::{FLOOD, MOST_TRIES, MOST_WAIT, Terms, server_of};
