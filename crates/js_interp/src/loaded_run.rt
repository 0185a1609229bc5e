// One run of a script that was loaded beforehand.
ghost use Rattle.std.specs.Prelude.{◌≡◌, ◌+◌, fold, OnErr, OnOk};
ghost use Rattle.js_tree.specs.Tree.{statements_of};
ghost use Rattle.js_scope.specs.Functions as scoped;
ghost use Rattle.js_host.specs.Answers.{Knowledge};
ghost use Rattle.js_host.specs.Seen.{alerted, fresh, with_alert};
ghost use Rattle.js_interp.specs.Answers.{Answers, run_of};
ghost use Rattle.js_interp.specs.Loads.{IsImageOf};
ghost use Rattle.js_interp.specs.Runs.{EndsOver, KeepsAlerts};

use crate::endings::ended;
use crate::image::Image;
use crate::one_run::{RunAnswer, Unfinished, begin, call_entry};
use crate::{Ending, Entry, Outcome};
use js_host::{Host, keep_alert};
use js_scope::Program;
use std::alloc::Global;
use std::sync::ledger::Ledger;
use step_counter::Steps;
use utf16_text::{Memory, TextList};

/// Runs a program for an entry, as `run` does, from an image of it: the load isn't done again. The image is of this
/// program, with the settings and the fuel of the entry.
pub fn run_loaded<H: Host, L: Ledger>(
    alloc: Global,
    program: &Program,
    image: &Image,
    entry: &Entry,
    host: &mut H,
    runs: &mut Steps<L>,
) -> RunAnswer
    requires image { IsImageOf program.now image.now }
    requires settings { image.now.settings ≡ entry.now.settings }
    requires fuel { image.now.fuel ≡ entry.now.fuel }
    ensures answers { (known : Knowledge) → H.seen host.old ≡ fresh known
        → Answers (run_of (statements_of program.now.body) (scoped.functions_of program.now.functions) entry.entry.now)
        known result (H.seen host.new) }
    ensures counts { runs.new ≡ runs.old + 1 }
{
    runs.tick();
    let mut alerts = TextList::new(alloc);
    match go_on(alloc, program, image, entry, host, &mut alerts) {
        Ok(ending) => RunAnswer::Done(Outcome { ending, alerts }),
        Err(Unfinished::Missing(name)) => RunAnswer::Missing(name),
        Err(Unfinished::Memory) => RunAnswer::Memory,
    }
}

/// The run from the image on, to its end or to a name that the host doesn't know.
fn go_on<H: Host>(
    alloc: Global,
    program: &Program,
    image: &Image,
    entry: &Entry,
    host: &mut H,
    alerts: &mut TextList,
) -> Result<Ending, Unfinished>
    requires image { IsImageOf program.now image.now }
    requires settings { image.now.settings ≡ entry.now.settings }
    requires fuel { image.now.fuel ≡ entry.now.fuel }
    ensures ends { (known : Knowledge) → H.seen host.old ≡ fresh known →
        EndsOver (run_of (statements_of program.now.body) (scoped.functions_of program.now.functions) entry.entry.now)
        (H.seen host.old) result (H.seen host.new) }
    ensures keeps { alerts.old ≡ (H.seen host.old).alerts → KeepsAlerts result alerts.new (H.seen host.new).alerts }
{
    tell_again(alloc, image.alerts(), host, alerts)?;
    let functions = program.functions.as_slice();
    let mut machine = begin(alloc, functions, image.state_at(alloc, entry.now)?)?;
    let end = call_entry(&mut machine, functions, entry, host, alerts);
    ended(alloc, &machine.state.heap, end)
}

/// Tells the host what the load told, and keeps it as the host does.
fn tell_again<H: Host>(
    alloc: Global,
    told: &TextList,
    host: &mut H,
    alerts: &mut TextList,
) -> Result<(), Memory>
    ensures told { OnOk result (H.seen host.new ≡ fold alerted (H.seen host.old) told.now) }
    ensures kept { OnOk result (alerts.new ≡ fold with_alert alerts.old told.now) }
{
    for text in told.as_slice() {
        host.alert(alloc, text)?;
        keep_alert(alloc, alerts, text)?;
    }
    Ok(())
}
