//! Many runs of scripts at once, over one table of answers and one stub: which runs are run again, and what is asked.
//!
//! A `Run` is run from its beginning each time, over a host that knows the answers so far; a run that misses one waits
//! for it. `Core` takes what comes over a link, and gives what is to be sent: it is a poller of poll_loop, whose loop
//! drives it. `specs/Stands.antt` says when it stands for a log. It stands on stub_poller for questions in flight and
//! on tracing_host for the hosts of runs.
#![tactic(auto)]

mod asking;
mod beats;
mod beginning;
mod cascade;
mod events;
mod keeping;
mod lookups;
mod poller;
mod resolving;
mod roster;
mod run;
mod session;
mod settling;
mod waiting;

pub use poller::Core;
pub use resolving::run_all;
pub use run::{Attempt, Run};
pub use session::{Progress, Session, SessionState};
