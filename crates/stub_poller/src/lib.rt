//! The questions in flight: which are sent again at a beat and to which server, which are given up, and to which a
//! datagram is a reply.
//!
//! `Stub` knows names, datagrams and beats, and nothing of sockets, clocks or scripts. Contracts see it as the list of
//! the questions in flight with their ages, in the order of asking, and the list of the dead names. It stands on
//! poll_log, whose definitions say by counting in a log what is in flight and dead; a law ties the two.
#![tactic(auto)]

mod flights;
mod index;
mod laws;
mod report;
mod row;
mod search;
mod slot;
mod stub;

pub use laws::driven_shows;
pub use poll_log::{Question, Sending};
pub use report::BeatReport;
pub use stub::Stub;
