//! The functions that a proxy auto-config script is handed, over the host of its run.
//!
//! They are those of the page on the Netscape Navigator Proxy Auto-Config format, `alert`, and three that browsers add
//! for addresses of both families. A call is seen as what it asks of the host and what it gives. It stands on hosts,
//! names, addresses, shell expressions, ranges of dates and times, and values.
#![tactic(auto)]

mod addresses;
mod call;
mod families;
mod ranges;
mod texts;

pub use call::{PacAnswer, PacFunction, PacSettings, call_pac};
