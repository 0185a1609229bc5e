// A program that is ready for many runs.
ghost use Rattle.std.specs.Prelude.{◌≡◌, ◌+◌, IfOk};
ghost use Rattle.std.specs.Option.{ForSome};
ghost use Rattle.js_tree.specs.Tree.{statements_of};
ghost use Rattle.js_scope.specs.Functions as scoped;
ghost use Rattle.js_host.specs.Answers.{Knowledge};
ghost use Rattle.js_host.specs.Seen.{fresh};
ghost use Rattle.js_interp.specs.Answers.{Answers, run_of};
ghost use Rattle.js_interp.specs.Loads.{IsImageOf};

use crate::Entry;
use crate::image::{Image, LoadAnswer, load};
use crate::loaded_run::run_loaded;
use crate::one_run::{RunAnswer, run};
use js_host::Host;
use js_scope::Program;
use pac_functions::PacSettings;
use std::alloc::Global;
use std::sync::ledger::Ledger;
use step_counter::Steps;
use utf16_text::Memory;

/// A program with its image, where its load gives one: many runs of it load it once.
#[derive(Drop)]
pub struct Prepared<'p> {
    pub program: &'p Program,
    image: Option<Image>,
    ghost is_its_own: { ForSome image (λ image. IsImageOf program.now image) },
}

impl<'p> Prepared<'p> {
    /// The program, which each run loads itself.
    pub fn plain(program: &'p Program) -> Prepared<'p>
        ensures { result.program.now ≡ program.now }
    {
        Prepared {
            program,
            image: None,
        }
    }

    /// Loads the program once, for runs with these settings and so much fuel.
    pub fn new(
        alloc: Global,
        program: &'p Program,
        settings: &PacSettings,
        fuel: u64,
    ) -> Result<Prepared<'p>, Memory>
        ensures { IfOk result (λ prepared. prepared.program.now ≡ program.now) }
    {
        match load(alloc, program, settings, fuel) {
            LoadAnswer::Image(image) => Ok(Prepared {
                program,
                image: Some(image),
            }),
            LoadAnswer::Plain => Ok(Prepared::plain(program)),
            LoadAnswer::Memory => Err(Memory),
        }
    }

    /// One run for an entry, as `run` does it: from the image, where there is one for its settings and its fuel.
    pub fn run<H: Host, L: Ledger>(
        &self,
        alloc: Global,
        entry: &Entry,
        host: &mut H,
        runs: &mut Steps<L>,
    ) -> RunAnswer
        ensures answers { (known : Knowledge) → H.seen host.old ≡ fresh known
            → Answers (run_of (statements_of self.now.program.now.body) (scoped.functions_of self.now.program.now.functions) entry.entry.now)
            known result (H.seen host.new) }
        ensures counts { runs.new ≡ runs.old + 1 }
    {
        match &self.image {
            Some(image) if image.serves(&entry.settings, entry.fuel) => {
                run_loaded(alloc, self.program, image, entry, host, runs)
            }
            _ => run(alloc, self.program, entry, host, runs),
        }
    }
}
