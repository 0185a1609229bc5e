// How a run is done.
ghost use Rattle.std.specs.Prelude.{◌≡◌, ◌&&◌};
ghost use Rattle.library_calls.specs.Told.{Reads};
ghost use Rattle.library_calls.specs.Settings.{is_fuel, is_moment, zone_in};

use crate::early::Early;
use crate::told::{Status, Told};
use crate::zone::zone_east;
use pac_calendar::{LAST_MOMENT, Zone};
use pac_words::MOST_FUEL;
use std::alloc::Global;

/// How a run is done.
#[repr(C)]
#[derive(Clone, Copy)]
pub struct Settings {
    /// What clocks show to the script, in seconds since 1970 in UTC.
    pub moment: i64,
    /// How much work the run may do.
    pub fuel: u64,
    /// What the script is told of this machine, the first octet of the address highest.
    pub my_ip: u32,
    /// Minutes east of UTC.
    pub zone_minutes: i32,
}

/// The zone of settings that are in range.
pub(crate) fn zone_of(alloc: Global, settings: &Settings) -> Result<Zone, Early>
    ensures { Reads (zone_in settings.now) result }
{
    match zone_east(settings.zone_minutes) {
        Some(zone) if is_in_range(settings) => Ok(zone),
        _ => Err(Early::Told(Told {
            status: Status::BadSettings,
            bytes: Vec::new(alloc),
        })),
    }
}

// Whether the words of a command could say this moment and fuel.
fn is_in_range(settings: &Settings) -> bool
    ensures { result ≡ (is_moment settings.now.moment && is_fuel settings.now.fuel) }
{
    0 <= settings.moment
        && settings.moment <= LAST_MOMENT as i64
        && 1 <= settings.fuel
        && settings.fuel <= MOST_FUEL
}
