//! What clocks show at a moment: the moments of pac_calendar, as a function of the seconds.
//!
//! `specs/Clocks.antt` goes from day to day, so that a definition of what a command does can say which moments a run is
//! handed. It stands on pac_calendar.
#![tactic(auto)]

mod clocks;

pub use clocks::shown;
