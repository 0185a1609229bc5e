// Fuel.
ghost use Rattle.js_regex.specs.Runs.{Spends};

use crate::FindAnswer;

/// Takes so many units from the fuel. Spent exactly where there are fewer, and then they stay.
pub(crate) fn spend(fuel: &mut u64, cost: u64) -> Result<(), FindAnswer>
    ensures { Spends cost fuel.old result fuel.new }
{
    if *fuel < cost {
        return Err(FindAnswer::Spent);
    }
    *fuel -= cost;
    Ok(())
}
