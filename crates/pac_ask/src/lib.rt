//! `ask`: the address of one name, from two servers over a link.
//!
//! `specs/Ask.antt` is its plan. The loop is that of poll_loop, driven by a stub of stub_poller with one question.
#![tactic(auto)]

mod asking;
mod laws;
mod one_name;

pub use asking::ask;
pub use laws::{asks_are_sound, told_is_answered};
