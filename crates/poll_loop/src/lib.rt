//! The loop that polls two servers over a link until nobody waits for an answer.
//!
//! A `Poller` says what is to be sent after each event; `poll` opens the link, sends and receives, at most as often as
//! the bound. What it leaves is a log that is polled, or cut short at a fault, by the definitions of poll_log. A
//! `BeatCounter` tells a poller which events are beats. It stands on pac_ports for links and dice, and on pac_plan, of
//! whose plans it is a talk.
#![tactic(auto)]

mod beats;
mod event;
mod laws;
mod looping;
mod poller;
mod sending;
mod stream;

pub use beats::BeatCounter;
pub use event::Event;
pub use laws::unfinished_is_cut;
pub use looping::{PollError, Upstream, poll};
pub use poller::Poller;
