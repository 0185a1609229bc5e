// A function of the proxy format asks or tells the host of the run.
ghost use Rattle.std.specs.Prelude.{◌≡◌, OnOk};
ghost use Rattle.js_machine.specs.declared.now.Now.TheVariants as now;
ghost use Rattle.js_runs.specs.Asking.{Calls, GivesBack, alerts_after};

use heap_steps::{Halt, counted};
use heap_values::Value;
use js_convert::to_text;
use js_evaluation::FaultCode;
use js_host::{Host, keep_alert};
use js_machine::{Machine, Now, Step};
use js_natives::argument;
use js_tree::Place;
use pac_functions::{PacAnswer, PacFunction, call_pac};
use pac_names::LookupName;
use std::alloc::Global;
use utf16_text::{List, Memory, TextList};

/// Calls a function of the proxy format over the host. What it tells the host is kept in `alerts` too, as the host
/// keeps it. Err is the name that the host doesn't know.
pub fn call_host<'p, H: Host>(
    machine: &mut Machine<'p>,
    function: PacFunction,
    arguments: List<Value>,
    place: Place,
    host: &mut H,
    alerts: &mut TextList,
) -> Result<Step<'p>, LookupName>
    ensures { Calls (now.Host function arguments place) machine.old (H.seen host.old) alerts.old result machine.new (H.seen host.new) alerts.new }
{
    let values = arguments.as_slice();
    let state = &machine.state;
    match call_pac(
        machine.alloc,
        function,
        values,
        state.now,
        &state.settings,
        host,
    ) {
        PacAnswer::Value(value) => match keep(machine.alloc, function, values, alerts) {
            Ok(()) => Ok(given_back(machine, value, place)),
            Err(Memory) => Ok(Err(Halt::Memory)),
        },
        PacAnswer::Missing(name) => Err(name),
        PacAnswer::TooMany => Ok(Err(Halt::Fault {
            code: FaultCode::TooManyNames,
            place,
        })),
        PacAnswer::NoClock => Ok(Err(Halt::Fault {
            code: FaultCode::Unsupported,
            place,
        })),
        PacAnswer::Memory => Ok(Err(Halt::Memory)),
    }
}

/// Keeps what `alert` tells; the other functions tell nothing.
fn keep(
    alloc: Global,
    function: PacFunction,
    arguments: &[Value],
    alerts: &mut TextList,
) -> Result<(), Memory>
    ensures { OnOk result (alerts.new ≡ alerts_after function arguments.now alerts.old) }
{
    match function {
        PacFunction::Alert => {
            let text = to_text(alloc, &argument(alloc, arguments, 0)?)?;
            keep_alert(alloc, alerts, &text)
        }
        _ => Ok(()),
    }
}

/// Gives the value of a call back; a text is counted.
fn given_back<'p>(machine: &mut Machine<'p>, value: Value, place: Place) -> Step<'p>
    ensures { GivesBack value place machine.old result machine.new }
{
    let value = counted(&mut machine.state.heap, value, place)?;
    Ok(Now::Back(Ok(value)))
}
