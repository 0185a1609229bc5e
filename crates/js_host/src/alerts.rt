// Alerts that are kept.
ghost use Rattle.std.specs.Prelude.{◌≡◌, IfOk, OnErr, OnOk, take};
ghost use Rattle.js_host.specs.Seen.{with_alert};
ghost use Rattle.js_host.specs.declared.limits.TheConstants.{MOST_UNITS};

use crate::limits::{MOST_ALERTS, MOST_UNITS};
use std::alloc::Global;
use utf16_text::{Memory, Text, TextList};

/// Puts the first 1,024 units of a text behind the alerts, unless there are 256. After Memory they are as before.
pub fn keep_alert(alloc: Global, alerts: &mut TextList, text: &Text) -> Result<(), Memory>
    ensures ok { OnOk result (alerts.new ≡ with_alert alerts.old text.now) }
    ensures unchanged { OnErr result (alerts.new ≡ alerts.old) }
{
    if alerts.len() >= MOST_ALERTS {
        return Ok(());
    }
    alerts.push(alloc, kept_units(alloc, text)?)
}

/// The units of a text that are kept.
pub fn kept_units(alloc: Global, text: &Text) -> Result<Text, Memory>
    ensures { IfOk result (λ kept. kept ≡ take MOST_UNITS text.now) }
{
    if text.len() <= MOST_UNITS {
        text.copy(alloc)
    } else {
        text.slice(alloc, 0, MOST_UNITS)
    }
}
