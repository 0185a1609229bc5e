//! The moments of a run, the zone of a command, and the ranges of weekdays, dates and times that a script may ask for:
//! `weekdayRange`, `dateRange` and `timeRange` of the Netscape Navigator Proxy Auto-Config format.
//!
//! It gives each range as a test of a moment. It stands on the texts and numbers of scripts, and on `jiff` for the
//! calendar.
#![tactic(auto)]

mod argument;
mod dates;
mod moment;
mod order;
mod showing;
mod times;
mod weekdays;
mod zone;

pub use argument::CalendarArg;
pub use dates::date_range;
pub use moment::{Civil, Moments};
pub use showing::{LAST_MOMENT, moments};
pub use times::time_range;
pub use weekdays::weekday_range;
pub use zone::{Zone, read_zone};
