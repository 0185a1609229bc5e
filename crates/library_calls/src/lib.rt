//! The calls of the library, as functions of bytes: one run of a script over the names that are told, a script as it is
//! printed, and the proxies of a list.
//!
//! They have no state, and touch neither files nor network nor clock. It stands on the crates that `map` and `check` of
//! pac_command stand on, and on the definitions of what these write.
#![tactic(auto)]

mod checking;
mod early;
mod find;
mod inputs;
mod laws;
mod list;
mod settings;
mod told;
mod zone;

pub use checking::check;
pub use find::find_proxy;
pub use laws::{map_says_the_same, wanted_is_untold};
pub use list::list_proxies;
pub use settings::Settings;
pub use told::{Status, Told};
