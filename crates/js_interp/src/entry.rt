// What a run is for.
use pac_calendar::Moments;
use pac_functions::PacSettings;
use utf16_text::Text;

/// The URL and its host, as the script sees them, what clocks show in GMT and in the zone, what the script is told of
/// this machine, and the fuel of the run: how many units of work it may take.
#[derive(Drop)]
pub struct Entry {
    pub url: Text,
    pub host: Text,
    pub now: Moments,
    pub settings: PacSettings,
    pub fuel: u64,
}
