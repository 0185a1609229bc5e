// A script that is loaded once for many runs.
ghost use Rattle.std.specs.Prelude.{◌≡◌, [], IfOk, IfSome, Some, true};
ghost use Rattle.std.specs.Option.{option_map};
ghost use Rattle.js_tree.specs.Tree.{statements_of};
ghost use Rattle.js_evaluation.specs.Evaluation as spec;
ghost use Rattle.js_evaluation.specs.Scoping.{by_slots};
ghost use Rattle.js_law_evaluation.specs.Laws.{at_moment};
ghost use Rattle.run_trees.specs.RunTree.{walk};
ghost use Rattle.js_machine.specs.Moves.{functions_of, run_state};
ghost use Rattle.js_interp.specs.ImageAnswers.{LoadsTo, ends_cut};
ghost use Rattle.js_interp.specs.Loads.{alone, beginning_in, beginning_where, program_beginning};

use crate::one_run::{begin, fresh};
use answer_table::AnswerTable;
use heap_steps::Halt;
use js_host::Host;
use js_machine::{Machine, Part, State};
use js_runs::{Cut, run_on};
use js_scope::Program;
use js_tree::Statement;
use pac_calendar::Moments;
use pac_functions::PacSettings;
use std::alloc::Global;
use std::marker::Model;
use tracing_host::TracingHost;
use utf16_text::{Memory, TextList};

/// What runs of a script begin with where it is loaded beforehand: the state behind the load, and the alerts that the
/// load told. A run has a copy of its heap, which shares what it doesn't change.
#[derive(Drop)]
pub struct Image {
    settings: PacSettings,
    fuel: u64,
    state: State,
    alerts: TextList,
}

impl Model for Image {
    ghost use Rattle.js_machine.specs.Moves.{run_state};
    ghost use Rattle.js_interp.specs.Loads.{ImageView};

    ghost Value = { ImageView };

    ghost view = { λ i. record { settings = i.settings; fuel = i.fuel; beginning = record { state = run_state i.state; alerts = i.alerts } } };
}

/// What a load answers.
#[derive(Drop)]
pub enum LoadAnswer {
    /// Each run may begin with this.
    Image(Image),
    /// Each run must load the script itself: the load throws or has a fault, asks for a name, or calls a function that
    /// goes by what clocks show.
    Plain,
    /// Memory was refused.
    Memory,
}

/// Loads a program for runs at any moment, with these settings and so much fuel. It counts as no run.
pub fn load(alloc: Global, program: &Program, settings: &PacSettings, fuel: u64) -> LoadAnswer
    ensures { LoadsTo (program_beginning program.now settings.now fuel) settings.now fuel result }
{
    match loaded(alloc, program, *settings, fuel) {
        Ok(Some(image)) => LoadAnswer::Image(image),
        Ok(None) => LoadAnswer::Plain,
        Err(Memory) => LoadAnswer::Memory,
    }
}

fn loaded(
    alloc: Global,
    program: &Program,
    settings: PacSettings,
    fuel: u64,
) -> Result<Option<Image>, Memory>
    ensures beginning { IfOk result (λ image. program_beginning program.now settings fuel ≡ option_map (λ i. i.beginning) image) }
    ensures same { IfOk result (λ image. IfSome image (λ i. (i.settings ≡ settings) × (i.fuel ≡ fuel))) }
{
    let nothing = AnswerTable::new(alloc);
    let mut host = TracingHost::new(alloc, &nothing);
    let mut alerts = TextList::new(alloc);
    let state = fresh(alloc, None, settings, fuel)?;
    let mut machine = begin(alloc, program.functions.as_slice(), state)?;
    if !load_ends(
        &mut machine,
        program.body.as_slice(),
        &mut host,
        &mut alerts,
    )? {
        return Ok(None);
    }
    let state = shared(alloc, machine.state)?;
    Ok(Some(Image {
        settings,
        fuel,
        state,
        alerts,
    }))
}

/// Loads the script over this host. Whether it comes to its end, with no throw, no fault and no name that the host
/// doesn't know.
fn load_ends<'p, H: Host>(
    machine: &mut Machine<'p>,
    body: &'p [Statement],
    host: &mut H,
    alerts: &mut TextList,
) -> Result<bool, Memory>
    requires { machine.old.frames ≡ [] }
    ensures ends { IfOk result (λ ends. beginning_in (walk (spec.loaded by_slots (functions_of machine.old) (statements_of body.entry.now) alone (run_state machine.old.state)) (H.seen host.old))
        ≡ beginning_where ends (run_state machine.new.state) (H.seen host.new).alerts) }
    ensures keeps { alerts.old ≡ (H.seen host.old).alerts → IfOk result (λ ends. ends ≡ true → alerts.new ≡ (H.seen host.new).alerts) }
{
    match run_on(machine, Part::Load(body), host, alerts) {
        Ok(end) => Ok(end.is_ok()),
        Err(cut) => cut_off(cut),
    }
}

/// A load that is cut comes to no end. Where that was want of memory, it isn't known whether it does.
fn cut_off(cut: Cut) -> Result<bool, Memory>
    ensures { IfOk result (λ ends. ends_cut cut ≡ Some ends) }
{
    match cut {
        Cut::Missing(_) => Ok(false),
        Cut::Halt(Halt::Throw(_)) => Ok(false),
        Cut::Halt(Halt::Fault { .. }) => Ok(false),
        Cut::Halt(Halt::LeftOut { .. }) => Ok(false),
        Cut::Halt(Halt::Memory) => Err(Memory),
    }
}

/// The same state, whose heap is shared by its copies.
fn shared(alloc: Global, state: State) -> Result<State, Memory>
    ensures { IfOk result (λ shared. run_state shared ≡ run_state state) }
{
    Ok(State {
        heap: state.heap.into_shared(alloc)?,
        fuel: state.fuel,
        now: state.now,
        settings: state.settings,
    })
}

impl Image {
    /// Whether it was loaded with these settings and so much fuel.
    pub fn serves(&self, settings: &PacSettings, fuel: u64) -> bool
        ensures { result ≡ true → (self.now.settings ≡ settings.now) × (self.now.fuel ≡ fuel) }
    {
        self.settings == *settings && self.fuel == fuel
    }

    /// The alerts of the load.
    pub(crate) fn alerts(&self) -> &TextList
        ensures { result.now ≡ self.now.beginning.alerts }
    {
        &self.alerts
    }

    /// The state in which a run at this moment goes on.
    pub(crate) fn state_at(&self, alloc: Global, now: Moments) -> Result<State, Memory>
        ensures { IfOk result (λ state. run_state state ≡ at_moment now self.now.beginning.state) }
    {
        Ok(State {
            heap: self.state.heap.copy(alloc)?,
            fuel: self.state.fuel,
            now: Some(now),
            settings: self.state.settings,
        })
    }
}
