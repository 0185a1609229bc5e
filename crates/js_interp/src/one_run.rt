// One run of a script.
ghost use Rattle.std.specs.Prelude.{◌≡◌, ◌+◌, ◌∷◌, [], IfOk};
ghost use Rattle.heap_values.specs.declared.value.Value.TheVariants as value;
ghost use Rattle.js_tree.specs.Tree.{statements_of};
ghost use Rattle.js_scope.specs.Functions as scoped;
ghost use Rattle.js_evaluation.specs.Scoping.{by_slots};
ghost use Rattle.js_evaluation.specs.Evaluation as spec;
ghost use Rattle.js_evaluation.specs.Evaluation.{fresh_state};
ghost use Rattle.js_machine.specs.Moves.{functions_of, run_state};
ghost use Rattle.js_host.specs.Answers.{Knowledge};
ghost use Rattle.js_host.specs.Seen.{fresh as untold};
ghost use Rattle.js_interp.specs.Answers.{Answers, entry_of, run_of};
ghost use Rattle.js_interp.specs.Runs.{Begun, EndsOver, KeepsAlerts, RunsBy, called};
ghost use Rattle.js_runs.specs.Closes.{KeptAtEnd};

use crate::endings::ended;
use crate::{Ending, Entry, Outcome};
use heap_steps::{Halt, callable, test_text};
use heap_values::{BuiltIn, Found, ObjectId, Value};
use js_evaluation::FaultCode;
use js_frames::{Context, Frames, OUTSIDE};
use js_host::Host;
use js_machine::{End, Machine, Part, State};
use js_runs::{Cut, run_on};
use js_scope::Program;
use js_tree::{Function, Statement};
use object_heap::Heap;
use pac_calendar::Moments;
use pac_functions::PacSettings;
use pac_names::LookupName;
use std::alloc::Global;
use std::sync::ledger::Ledger;
use step_counter::Steps;
use utf16_text::{List, Memory, Text, TextList};

/// What a run answers.
#[derive(Drop)]
pub enum RunAnswer {
    /// The run came to its end.
    Done(Outcome),
    /// The host doesn't know this name; it is the first of the run that it doesn't know.
    Missing(LookupName),
    /// Memory was refused.
    Memory,
}

/// Runs a program for an entry: it is loaded into a fresh heap, and its function, `FindProxyForURLEx` or else
/// `FindProxyForURL`, is called with the URL and the host. It counts as one run. What is said of its answer holds for a host that was asked nothing yet and
/// kept no alert.
pub fn run<H: Host, L: Ledger>(
    alloc: Global,
    program: &Program,
    entry: &Entry,
    host: &mut H,
    runs: &mut Steps<L>,
) -> RunAnswer
    ensures answers { (known : Knowledge) → H.seen host.old ≡ untold known
        → Answers (run_of (statements_of program.now.body) (scoped.functions_of program.now.functions) entry.entry.now)
        known result (H.seen host.new) }
    ensures counts { runs.new ≡ runs.old + 1 }
{
    runs.tick();
    let mut alerts = TextList::new(alloc);
    match run_over(alloc, program, entry, host, &mut alerts) {
        Ok(ending) => RunAnswer::Done(Outcome { ending, alerts }),
        Err(Unfinished::Missing(name)) => RunAnswer::Missing(name),
        Err(Unfinished::Memory) => RunAnswer::Memory,
    }
}

/// Why a run gives no outcome.
#[derive(Drop)]
pub(crate) enum Unfinished {
    Missing(LookupName),
    Memory,
}

impl From<Memory> for Unfinished {
    ghost use Rattle.std.specs.Prelude.{◌≡◌};
    ghost use Rattle.js_interp.specs.declared.one_run.Unfinished.TheVariants as unfinished;

    ghost from_gives = { λ _ why. why ≡ unfinished.Memory };

    fn from(_memory: Memory) -> Unfinished {
        Unfinished::Memory
    }
}

/// A run over the host, to its end or to a name that the host doesn't know. What the script tells the host is kept in
/// `alerts` too.
fn run_over<H: Host>(
    alloc: Global,
    program: &Program,
    entry: &Entry,
    host: &mut H,
    alerts: &mut TextList,
) -> Result<Ending, Unfinished>
    ensures ends { EndsOver (run_of (statements_of program.now.body) (scoped.functions_of program.now.functions) entry.entry.now) (H.seen host.old) result (H.seen host.new) }
    ensures keeps { alerts.old ≡ (H.seen host.old).alerts → KeepsAlerts result alerts.new (H.seen host.new).alerts }
{
    let state = fresh(alloc, Some(entry.now), entry.settings, entry.fuel)?;
    let mut machine = begin(alloc, program.functions.as_slice(), state)?;
    let end = run_whole(&mut machine, program.body.as_slice(), entry, host, alerts);
    ended(alloc, &machine.state.heap, end)
}

/// The state before anything is done.
pub(crate) fn fresh(
    alloc: Global,
    now: Option<Moments>,
    settings: PacSettings,
    fuel: u64,
) -> Result<State, Memory>
    ensures { IfOk result (λ state. run_state state ≡ fresh_state by_slots now settings fuel) }
{
    let heap = Heap::new(alloc)?;
    Ok(State {
        heap,
        fuel,
        now,
        settings,
    })
}

/// A machine in this state, with no part open, in the outermost scope. functions: those of the script.
pub(crate) fn begin<'p>(
    alloc: Global,
    functions: &'p [Function],
    state: State,
) -> Result<Machine<'p>, Memory>
    ensures { IfOk result (λ machine. Begun functions.entry state machine) }
{
    let this = Value::Object(state.heap.built_in(BuiltIn::Global));
    let scope = state.heap.outer();
    Ok(Machine {
        alloc,
        functions,
        context: Context { scope, this },
        frames: Frames::new(alloc)?,
        state,
    })
}

/// Loads the script, and calls its function.
fn run_whole<'p, H: Host>(
    machine: &mut Machine<'p>,
    body: &'p [Statement],
    entry: &Entry,
    host: &mut H,
    alerts: &mut TextList,
) -> Result<End, Cut>
    requires { machine.old.frames ≡ [] }
    ensures runs { RunsBy (spec.script_run by_slots (functions_of machine.old) (entry_of entry.entry.now) (statements_of body.entry.now)) machine.old (H.seen host.old) result machine.new (H.seen host.new) }
    ensures keeps { alerts.old ≡ (H.seen host.old).alerts → KeptAtEnd result alerts.new (H.seen host.new).alerts }
{
    let functions = machine.functions;
    match run_on(machine, Part::Load(body), host, alerts)? {
        Ok(_) => call_entry(machine, functions, entry, host, alerts),
        Err(stop) => Ok(Err(stop)),
    }
}

/// Calls the function of the script, where there is one and both texts are short enough. functions: those of the script
/// that is loaded.
pub(crate) fn call_entry<'p, H: Host>(
    machine: &mut Machine<'p>,
    functions: &'p [Function],
    entry: &Entry,
    host: &mut H,
    alerts: &mut TextList,
) -> Result<End, Cut>
    requires { machine.old.frames ≡ [] }
    ensures runs { RunsBy (called (scoped.functions_of functions.entry.now) (entry_of entry.entry.now)) machine.old (H.seen host.old) result machine.new (H.seen host.new) }
    ensures keeps { alerts.old ≡ (H.seen host.old).alerts → KeptAtEnd result alerts.new (H.seen host.new).alerts }
{
    machine.functions = functions;
    let Some(function) = entry_function(machine.alloc, &machine.state.heap)? else {
        return Err(Cut::Halt(Halt::Fault {
            code: FaultCode::NoEntry,
            place: OUTSIDE,
        }));
    };
    test_text(&entry.url, OUTSIDE)?;
    test_text(&entry.host, OUTSIDE)?;
    let this = Value::Object(machine.state.heap.built_in(BuiltIn::Global));
    let arguments = arguments(machine.alloc, entry)?;
    let call = Part::Call(function, this, arguments, OUTSIDE);
    run_on(machine, call, host, alerts)
}

/// The function of the script: `FindProxyForURLEx` where there is one, else `FindProxyForURL`.
fn entry_function(alloc: Global, heap: &Heap) -> Result<Option<ObjectId>, Memory>
    ensures { IfOk result (λ function. function ≡ spec.entry_in heap.now) }
{
    match function_named(alloc, heap, b"FindProxyForURLEx")? {
        Some(function) => Ok(Some(function)),
        None => function_named(alloc, heap, b"FindProxyForURL"),
    }
}

/// The function that a global name stands for.
fn function_named(alloc: Global, heap: &Heap, name: &[u8]) -> Result<Option<ObjectId>, Memory>
    ensures { IfOk result (λ function. function ≡ spec.function_named heap.now name.now) }
{
    let name = Text::from_latin_1(alloc, name)?;
    match heap.get(alloc, heap.built_in(BuiltIn::Global), &name)? {
        Found::Value(value) => Ok(callable(heap, &value)),
        Found::Absent => Ok(None),
        Found::LeftOut(_) => Ok(None),
    }
}

/// The arguments that the function is called with.
fn arguments(alloc: Global, entry: &Entry) -> Result<List<Value>, Memory>
    ensures { IfOk result (λ vs. vs ≡ value.Text entry.entry.now.url ∷ value.Text entry.entry.now.host ∷ []) }
{
    let mut arguments = List::new(alloc);
    arguments.push(alloc, Value::Text(entry.url.copy(alloc)?))?;
    arguments.push(alloc, Value::Text(entry.host.copy(alloc)?))?;
    Ok(arguments)
}
