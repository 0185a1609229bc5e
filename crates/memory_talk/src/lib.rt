//! Talks over a link in memory, whose questions are answered from a map and numbered 0, 1, 2 and so on.
//!
//! `CountingDice` give the numbers; the link is that of pac_generate, and the loop that of poll_loop.
//! `specs/Talks.antt` says what such a talk does to the outside of a command: nothing but runs of scripts.
//! `specs/Laws.antt` says that its sessions end as their runs against the map do, and that each of its questions has
//! its reply, where names are few.
#![tactic(auto)]

mod counting_dice;
mod laws;

pub use counting_dice::CountingDice;
pub use laws::{
    agrees_with_the_map, cut_costs_no_more, cut_is_front, link_has_room, log_is_there,
    no_frame_is_due, no_frame_is_sent, one_log, questions_are_replied, sites_have_addresses,
    sound_jobs_ask_few, told_is_the_maps,
};
