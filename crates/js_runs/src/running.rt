// The loop of a run.
ghost use Rattle.std.specs.Prelude.{◌≡◌, [], OnOk};
ghost use Rattle.js_machine.specs.declared.now.Now.TheVariants.{Begin};
ghost use Rattle.js_runs.specs.Closes.{Closes, KeptAtEnd, handed_on};

use crate::asking::call_host;
use crate::back::{back, referred, stopped};
use crate::begin::begin;
use heap_steps::Halt;
use heap_values::Value;
use js_frames::{EndKind, Open};
use js_host::Host;
use js_machine::{End, Machine, Now, Part, Step};
use pac_names::LookupName;
use run_trees::Abrupt;
use utf16_text::{Memory, TextList};

/// Why a run doesn't come to the end of its outermost part.
#[derive(Drop)]
pub enum Cut {
    /// It is at its end by a fault, or memory was refused.
    Halt(Halt),
    /// The host doesn't know this name.
    Missing(LookupName),
}

impl From<Halt> for Cut {
    ghost use Rattle.std.specs.Prelude.{◌≡◌};
    ghost use Rattle.js_runs.specs.declared.running.Cut.TheVariants as cut;

    ghost from_gives = { λ h c. c ≡ cut.Halt h };

    fn from(halt: Halt) -> Cut {
        Cut::Halt(halt)
    }
}

impl From<Memory> for Cut {
    ghost use Rattle.std.specs.Prelude.{◌≡◌};
    ghost use Rattle.heap_steps.specs.declared.halt.Halt.TheVariants as halt;
    ghost use Rattle.js_runs.specs.declared.running.Cut.TheVariants as cut;

    ghost from_gives = { λ _ c. c ≡ cut.Halt halt.Memory };

    fn from(_memory: Memory) -> Cut {
        Cut::Halt(Halt::Memory)
    }
}

/// What is thrown goes back to the part around.
fn handed_on<'p>(step: Step<'p>) -> Step<'p>
    ensures { result ≡ handed_on step.entry }
{
    match step {
        Ok(now) => Ok(now),
        Err(halt) => match halt {
            Halt::Throw(thrown) => Ok(Now::Back(Err(Abrupt::Thrown(thrown)))),
            halt => Err(halt),
        },
    }
}

/// Begins a part, and goes on until no part is open: the end of the outermost one. A fault, or a property that is left
/// out, ends the run as an error; so do a name that the host doesn't know, and want of memory, after which the machine
/// is of no use. What is thrown is no error here, but an end. What the script tells the host is kept in `alerts` too.
pub fn run_on<'p, H: Host>(
    machine: &mut Machine<'p>,
    first: Part<'p>,
    host: &mut H,
    alerts: &mut TextList,
) -> Result<End, Cut>
    ensures closes { Closes machine.old (Begin first.entry) (H.seen host.old) result machine.new (H.seen host.new) }
    ensures keeps { alerts.old ≡ (H.seen host.old).alerts → KeptAtEnd result alerts.new (H.seen host.new).alerts }
    ensures none_open { OnOk result (machine.new.frames ≡ []) }
{
    let mut now = Now::Begin(first);
    loop {
        match now {
            Now::Begin(part) => now = handed_on(begin(machine, part))?,
            Now::Host(function, arguments, place) => {
                match call_host(machine, function, arguments, place, host, alerts) {
                    Ok(step) => now = handed_on(step)?,
                    Err(name) => return Err(Cut::Missing(name)),
                }
            }
            Now::Back(Ok(value)) => match machine.frames.pop() {
                None => return Ok(Ok(value)),
                Some(Open { context, frame }) => {
                    machine.context = context;
                    now = handed_on(back(machine, frame, value))?
                }
            },
            Now::Refers(reference) => match machine.frames.pop() {
                None => return Ok(Ok(Value::Undefined)),
                Some(Open { context, frame }) => {
                    machine.context = context;
                    now = handed_on(referred(machine, frame, reference))?
                }
            },
            Now::Back(Err(stop)) => match machine.frames.unwind(EndKind::of(&stop)) {
                None => return Ok(Err(stop)),
                Some(Open { context, frame }) => {
                    machine.context = context;
                    now = handed_on(stopped(machine, frame, stop))?
                }
            },
        }
    }
}
